//! Sorts of tokens, by numbers, and classes of them.
ghost use Rattle.std.specs.Prelude.{◌≡◌};
ghost use Rattle.wy_reading.specs.Rule.{among};
ghost use Rattle.wy_parse_grammar.specs.Sorts as sorts;
ghost use Rattle.wy_parse_grammar.specs.declared.sort.Class.TheVariants as class;

use wy_lex::TokenKind;
use wy_value::INT_MAX;

pub const TYPE: u8 = 1;

pub const IS: u8 = 2;

pub const WHERE: u8 = 3;

pub const FUNCTION: u8 = 4;

pub const METHOD: u8 = 5;

pub const PROPERTY: u8 = 6;

pub const REQUIRES: u8 = 7;

pub const ENSURES: u8 = 8;

pub const IF: u8 = 9;

pub const ELSE: u8 = 10;

pub const WHILE: u8 = 11;

pub const DO: u8 = 12;

pub const SWITCH: u8 = 13;

pub const CASE: u8 = 14;

pub const DEFAULT: u8 = 15;

pub const FOR: u8 = 16;

pub const IN: u8 = 17;

pub const RETURN: u8 = 18;

pub const BREAK: u8 = 19;

pub const CONTINUE: u8 = 20;

pub const ASSERT: u8 = 21;

pub const FAIL: u8 = 22;

pub const SKIP: u8 = 23;

pub const ALL: u8 = 24;

pub const SOME: u8 = 25;

pub const NULL: u8 = 26;

pub const BOOL: u8 = 27;

pub const INT: u8 = 28;

pub const ANY: u8 = 29;

pub const VOID: u8 = 30;

pub const TRUE: u8 = 31;

pub const FALSE: u8 = 32;

pub const IMPORT: u8 = 33;

pub const OPEN_PAREN: u8 = 34;

pub const CLOSE_PAREN: u8 = 35;

pub const OPEN_BRACKET: u8 = 36;

pub const CLOSE_BRACKET: u8 = 37;

pub const OPEN_BRACE: u8 = 38;

pub const CLOSE_BRACE: u8 = 39;

pub const COMMA: u8 = 40;

pub const COLON: u8 = 41;

pub const SEMICOLON: u8 = 42;

pub const DOT: u8 = 43;

pub const RANGE: u8 = 44;

pub const ARROW: u8 = 45;

pub const ASSIGN: u8 = 46;

pub const EQUAL: u8 = 47;

pub const NOT_EQUAL: u8 = 48;

pub const LESS: u8 = 49;

pub const LESS_EQUAL: u8 = 50;

pub const GREATER: u8 = 51;

pub const GREATER_EQUAL: u8 = 52;

pub const PLUS: u8 = 53;

pub const MINUS: u8 = 54;

pub const STAR: u8 = 55;

pub const SLASH: u8 = 56;

pub const PERCENT: u8 = 57;

pub const NOT: u8 = 58;

pub const AND: u8 = 59;

pub const OR: u8 = 60;

pub const IMPLIES: u8 = 61;

pub const BAR: u8 = 62;

pub const AMPERSAND: u8 = 63;

pub const NAME: u8 = 64;

pub const NUMERAL: u8 = 65;

pub const TEXT: u8 = 66;

pub const LINE_END: u8 = 67;

pub const BLOCK_IN: u8 = 68;

pub const BLOCK_OUT: u8 = 69;

pub const END: u8 = 70;
/// The numeral 2^95, which is an `int` only behind a minus.
pub const BEYOND: u8 = 71;
/// A number that no numeral writes.
pub const NO_NUMERAL: u8 = 72;

/// The sort of a token.
pub fn sort(kind: &TokenKind) -> u8
    ensures { result ≡ sorts.sort kind.now }
{
    match kind {
        TokenKind::TypeWord => TYPE,
        TokenKind::Is => IS,
        TokenKind::Where => WHERE,
        TokenKind::Function => FUNCTION,
        TokenKind::Method => METHOD,
        TokenKind::Property => PROPERTY,
        TokenKind::Requires => REQUIRES,
        TokenKind::Ensures => ENSURES,
        TokenKind::If => IF,
        TokenKind::Else => ELSE,
        TokenKind::While => WHILE,
        TokenKind::Do => DO,
        TokenKind::Switch => SWITCH,
        TokenKind::Case => CASE,
        TokenKind::Default => DEFAULT,
        TokenKind::For => FOR,
        TokenKind::In => IN,
        TokenKind::Return => RETURN,
        TokenKind::Break => BREAK,
        TokenKind::Continue => CONTINUE,
        TokenKind::Assert => ASSERT,
        TokenKind::Fail => FAIL,
        TokenKind::Skip => SKIP,
        TokenKind::All => ALL,
        TokenKind::Some => SOME,
        TokenKind::Null => NULL,
        TokenKind::Bool => BOOL,
        TokenKind::Int => INT,
        TokenKind::Any => ANY,
        TokenKind::Void => VOID,
        TokenKind::True => TRUE,
        TokenKind::False => FALSE,
        TokenKind::Import => IMPORT,
        TokenKind::OpenParen => OPEN_PAREN,
        TokenKind::CloseParen => CLOSE_PAREN,
        TokenKind::OpenBracket => OPEN_BRACKET,
        TokenKind::CloseBracket => CLOSE_BRACKET,
        TokenKind::OpenBrace => OPEN_BRACE,
        TokenKind::CloseBrace => CLOSE_BRACE,
        TokenKind::Comma => COMMA,
        TokenKind::Colon => COLON,
        TokenKind::Semicolon => SEMICOLON,
        TokenKind::Dot => DOT,
        TokenKind::Range => RANGE,
        TokenKind::Arrow => ARROW,
        TokenKind::Assign => ASSIGN,
        TokenKind::Equal => EQUAL,
        TokenKind::NotEqual => NOT_EQUAL,
        TokenKind::Less => LESS,
        TokenKind::LessEqual => LESS_EQUAL,
        TokenKind::Greater => GREATER,
        TokenKind::GreaterEqual => GREATER_EQUAL,
        TokenKind::Plus => PLUS,
        TokenKind::Minus => MINUS,
        TokenKind::Star => STAR,
        TokenKind::Slash => SLASH,
        TokenKind::Percent => PERCENT,
        TokenKind::Not => NOT,
        TokenKind::And => AND,
        TokenKind::Or => OR,
        TokenKind::Implies => IMPLIES,
        TokenKind::Bar => BAR,
        TokenKind::Ampersand => AMPERSAND,
        TokenKind::Name(_) => NAME,
        TokenKind::Numeral(number) => numeral_sort(*number),
        TokenKind::Text(_) => TEXT,
        TokenKind::LineEnd => LINE_END,
        TokenKind::BlockIn => BLOCK_IN,
        TokenKind::BlockOut => BLOCK_OUT,
        TokenKind::End => END,
    }
}

fn numeral_sort(number: i128) -> u8
    ensures { result ≡ sorts.numeral_sort number }
{
    if number < 0 {
        return NO_NUMERAL;
    }
    if number <= INT_MAX {
        return NUMERAL;
    }
    if number == INT_MAX + 1 {
        return BEYOND;
    }
    NO_NUMERAL
}

/// A class of tokens, by what the grammar asks of the next one.
#[derive(Clone, Copy)]
pub enum Class {
    /// What begins a type.
    Type,
    /// A word that is a type.
    BaseType,
    /// What begins an expression.
    Expression,
    /// A literal without a minus.
    Literal,
    /// `all` and `some`.
    Quantifier,
    /// What takes a part of a value: `[` and `.`
    Step,
    /// `*`, `/` and `%`
    Factor,
    /// `+` and `-`
    Summand,
    /// `==`, `!=`, `<`, `<=`, `>` and `>=`
    Comparison,
    /// `&&` and `||`
    Connective,
    /// What begins a statement.
    Statement,
    /// A statement of one word.
    Word,
    /// What goes on with a type behind a name.
    TypeGoesOn,
    /// A label without a minus.
    LabelWord,
    /// `requires` and `ensures`
    Clause,
    /// What begins a declaration.
    Declaration,
}

/// Whether a token of the sort is in the class.
pub fn has(class: Class, sort: u8) -> bool
    ensures { result ≡ among (sorts.members class) sort }
{
    match class {
        Class::Type => is_type(sort),
        Class::BaseType => is_base_type(sort),
        Class::Expression => is_expression(sort),
        Class::Literal => is_literal(sort),
        Class::Quantifier => is_quantifier(sort),
        Class::Step => is_step(sort),
        Class::Factor => is_factor(sort),
        Class::Summand => is_summand(sort),
        Class::Comparison => is_comparison(sort),
        Class::Connective => is_connective(sort),
        Class::Statement => is_statement(sort),
        Class::Word => is_word(sort),
        Class::TypeGoesOn => is_type_goes_on(sort),
        Class::LabelWord => is_label_word(sort),
        Class::Clause => is_clause(sort),
        Class::Declaration => is_declaration(sort),
    }
}

fn is_type(sort: u8) -> bool
    ensures { result ≡ among (sorts.members class.Type) sort }
{
    sort == NOT
        || (sort == NULL
            || (sort == BOOL
                || (sort == INT
                    || (sort == ANY
                        || (sort == VOID
                            || (sort == NAME || (sort == OPEN_PAREN || sort == OPEN_BRACE)))))))
}

fn is_base_type(sort: u8) -> bool
    ensures { result ≡ among (sorts.members class.BaseType) sort }
{
    sort == NULL || (sort == BOOL || (sort == INT || (sort == ANY || sort == VOID)))
}

fn is_expression(sort: u8) -> bool
    ensures { result ≡ among (sorts.members class.Expression) sort }
{
    sort == NOT
        || (sort == MINUS
            || (sort == NUMERAL
                || (sort == TEXT
                    || (sort == NULL
                        || (sort == TRUE
                            || (sort == FALSE
                                || (sort == NAME
                                    || (sort == OPEN_PAREN
                                        || (sort == BAR
                                            || (sort == OPEN_BRACKET
                                                || (sort == OPEN_BRACE
                                                    || (sort == ALL || sort == SOME))))))))))))
}

fn is_literal(sort: u8) -> bool
    ensures { result ≡ among (sorts.members class.Literal) sort }
{
    sort == NUMERAL || (sort == TEXT || (sort == NULL || (sort == TRUE || sort == FALSE)))
}

fn is_quantifier(sort: u8) -> bool
    ensures { result ≡ among (sorts.members class.Quantifier) sort }
{
    sort == ALL || sort == SOME
}

fn is_step(sort: u8) -> bool
    ensures { result ≡ among (sorts.members class.Step) sort }
{
    sort == OPEN_BRACKET || sort == DOT
}

fn is_factor(sort: u8) -> bool
    ensures { result ≡ among (sorts.members class.Factor) sort }
{
    sort == STAR || (sort == SLASH || sort == PERCENT)
}

fn is_summand(sort: u8) -> bool
    ensures { result ≡ among (sorts.members class.Summand) sort }
{
    sort == PLUS || sort == MINUS
}

fn is_comparison(sort: u8) -> bool
    ensures { result ≡ among (sorts.members class.Comparison) sort }
{
    sort == EQUAL
        || (sort == NOT_EQUAL
            || (sort == LESS || (sort == LESS_EQUAL || (sort == GREATER || sort == GREATER_EQUAL))))
}

fn is_connective(sort: u8) -> bool
    ensures { result ≡ among (sorts.members class.Connective) sort }
{
    sort == AND || sort == OR
}

fn is_statement(sort: u8) -> bool
    ensures { result ≡ among (sorts.members class.Statement) sort }
{
    sort == NOT
        || (sort == NULL
            || (sort == BOOL
                || (sort == INT
                    || (sort == ANY
                        || (sort == VOID
                            || (sort == NAME
                                || (sort == OPEN_PAREN
                                    || (sort == OPEN_BRACE
                                        || (sort == RETURN
                                            || (sort == ASSERT
                                                || (sort == BREAK
                                                    || (sort == CONTINUE
                                                        || (sort == SKIP
                                                            || (sort == FAIL
                                                                || (sort == IF
                                                                    || (sort == WHILE
                                                                        || (sort == DO
                                                                            || (sort == FOR
                                                                                || sort
                                                                                    == SWITCH))))))))))))))))))
}

fn is_word(sort: u8) -> bool
    ensures { result ≡ among (sorts.members class.Word) sort }
{
    sort == BREAK || (sort == CONTINUE || (sort == SKIP || sort == FAIL))
}

fn is_type_goes_on(sort: u8) -> bool
    ensures { result ≡ among (sorts.members class.TypeGoesOn) sort }
{
    sort == NAME || (sort == BAR || sort == AMPERSAND)
}

fn is_label_word(sort: u8) -> bool
    ensures { result ≡ among (sorts.members class.LabelWord) sort }
{
    sort == NULL || (sort == TRUE || (sort == FALSE || sort == NUMERAL))
}

fn is_clause(sort: u8) -> bool
    ensures { result ≡ among (sorts.members class.Clause) sort }
{
    sort == REQUIRES || sort == ENSURES
}

fn is_declaration(sort: u8) -> bool
    ensures { result ≡ among (sorts.members class.Declaration) sort }
{
    sort == TYPE || (sort == FUNCTION || (sort == METHOD || sort == PROPERTY))
}
