//! Words of the language, and the symbols.
ghost use Rattle.std.specs.Prelude.{◌≡◌, ◌<◌, ◌^◌, slice_index_or, length, MatchOption, IfOk, Some, None, false, true};
ghost use Rattle.wy_lex.specs.Kinds as kinds;
ghost use Rattle.wy_lex.specs.declared.token.TokenKind.TheVariants as k;

use crate::symbol::Character;
use crate::token::TokenKind;
use wy_data::{Name, same_bytes};

/// What the word is: one of the language's own, or a name.
#[tactic(auto, unfolding(crate::specs::Kinds::word_kind))]
pub fn word_kind(word: Name) -> TokenKind
    ensures { result ≡ kinds.word_kind word }
{
    let mut n = 0;
    for keyword in WORDS.as_slice() {
        if same_bytes(keyword.as_bytes(), word.as_bytes()) {
            return kind_of(n);
        }
        n += 1;
    }
    TokenKind::Name(word)
}

// The kind of a word of the language, by its number in the list.
fn kind_of(n: usize) -> TokenKind
    requires { n < 33 }
    ensures { result ≡ slice_index_or kinds.word_kinds n k.End }
{
    match n {
        0 => TokenKind::TypeWord,
        1 => TokenKind::Is,
        2 => TokenKind::Where,
        3 => TokenKind::Function,
        4 => TokenKind::Method,
        5 => TokenKind::Property,
        6 => TokenKind::Requires,
        7 => TokenKind::Ensures,
        8 => TokenKind::If,
        9 => TokenKind::Else,
        10 => TokenKind::While,
        11 => TokenKind::Do,
        12 => TokenKind::Switch,
        13 => TokenKind::Case,
        14 => TokenKind::Default,
        15 => TokenKind::For,
        16 => TokenKind::In,
        17 => TokenKind::Return,
        18 => TokenKind::Break,
        19 => TokenKind::Continue,
        20 => TokenKind::Assert,
        21 => TokenKind::Fail,
        22 => TokenKind::Skip,
        23 => TokenKind::All,
        24 => TokenKind::Some,
        25 => TokenKind::Null,
        26 => TokenKind::Bool,
        27 => TokenKind::Int,
        28 => TokenKind::Any,
        29 => TokenKind::Void,
        30 => TokenKind::True,
        31 => TokenKind::False,
        _ => TokenKind::Import,
    }
}

/// Whether a line that begins with the token continues the line before it.
pub fn continues(kind: &TokenKind) -> bool
    ensures { result ≡ kinds.continues kind.now }
{
    matches!(
        kind,
        TokenKind::Requires | TokenKind::Ensures | TokenKind::Where
    )
}

pub fn is_colon(kind: &TokenKind) -> bool
    ensures { result ≡ kinds.is_colon kind.now }
{
    matches!(kind, TokenKind::Colon)
}

/// How deep in brackets what follows the token stands, where the token itself stands so deep.
pub fn depth_after(kind: &TokenKind, depth: usize) -> usize
    requires { depth < 2 ^ 63 }
    ensures { result ≡ kinds.depth_after kind.now depth }
{
    match kind {
        TokenKind::OpenParen | TokenKind::OpenBracket | TokenKind::OpenBrace => depth + 1,
        TokenKind::CloseParen | TokenKind::CloseBracket | TokenKind::CloseBrace => {
            depth.saturating_sub(1)
        }
        _ => depth,
    }
}

/// The symbol of one character.
pub fn single(c: char) -> TokenKind
    ensures { result ≡ kinds.single c }
{
    match c {
        '(' => TokenKind::OpenParen,
        ')' => TokenKind::CloseParen,
        '[' => TokenKind::OpenBracket,
        ']' => TokenKind::CloseBracket,
        '{' => TokenKind::OpenBrace,
        '}' => TokenKind::CloseBrace,
        ',' => TokenKind::Comma,
        ':' => TokenKind::Colon,
        ';' => TokenKind::Semicolon,
        '.' => TokenKind::Dot,
        '=' => TokenKind::Assign,
        '!' => TokenKind::Not,
        '<' => TokenKind::Less,
        '>' => TokenKind::Greater,
        '+' => TokenKind::Plus,
        '-' => TokenKind::Minus,
        '*' => TokenKind::Star,
        '%' => TokenKind::Percent,
        '&' => TokenKind::Ampersand,
        _ => TokenKind::Bar,
    }
}

/// What makes a symbol of two characters of the one.
pub fn second(c: char) -> Character
    ensures { result ≡ kinds.second c }
{
    match c {
        '.' => Character::Is('.'),
        '-' => Character::Is('>'),
        '=' | '!' | '<' | '>' => Character::Is('='),
        '&' => Character::Is('&'),
        '|' => Character::Is('|'),
        _ => Character::Nothing,
    }
}

/// The symbol of two characters that the one begins.
pub fn double(c: char) -> TokenKind
    ensures { result ≡ kinds.double c }
{
    match c {
        '.' => TokenKind::Range,
        '-' => TokenKind::Arrow,
        '=' => TokenKind::Equal,
        '!' => TokenKind::NotEqual,
        '<' => TokenKind::LessEqual,
        '>' => TokenKind::GreaterEqual,
        '&' => TokenKind::And,
        _ => TokenKind::Or,
    }
}

/// What makes a symbol of three characters of that.
pub fn third(c: char) -> Character
    ensures { result ≡ kinds.third c }
{
    if c == '=' {
        Character::Is('>')
    } else {
        Character::Nothing
    }
}

/// The code that a backslash and the character mean.
pub fn escaped(c: char) -> Option<u8>
    ensures { result ≡ kinds.escaped c }
{
    match c {
        'n' => Some(b'\n'),
        't' => Some(b'\t'),
        '\\' => Some(b'\\'),
        '"' => Some(b'"'),
        _ => None,
    }
}

const WORDS: [&str; 33] = [
    "type", "is", "where", "function", "method", "property", "requires", "ensures", "if", "else",
    "while", "do", "switch", "case", "default", "for", "in", "return", "break", "continue",
    "assert", "fail", "skip", "all", "some", "null", "bool", "int", "any", "void", "true", "false",
    "import",
];
