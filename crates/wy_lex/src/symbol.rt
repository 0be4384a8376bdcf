//! Characters with their places, and classes of them.
ghost use Rattle.std.specs.Prelude.{◌≡◌};
ghost use Rattle.wy_lex.specs.Symbols as symbols;

use wy_reading::Class;

/// A character of a source, and the byte offset where it stands. A line end is `\n`.
#[derive(Clone, Copy, Debug, PartialEq, Eq)]
pub struct Symbol {
    pub character: char,
    pub at: u32,
}

/// A class of characters, by what the grammar of tokens asks of the next one.
#[derive(Clone, Copy, Debug, PartialEq, Eq)]
pub enum Character {
    Nothing,
    Any,
    Is(char),
    /// A space or a tab.
    Blank,
    LineEnd,
    NoLineEnd,
    /// What a word begins with, and what it goes on with.
    Start,
    Part,
    Digit,
    /// What stands in a string as itself.
    Plain,
    /// What goes on with a string: itself, or a backslash.
    Inside,
    /// What a symbol begins with, the slash left out.
    Sign,
    /// What a literal or a symbol begins with, the slash left out.
    Other,
    /// What makes a comment of a slash before it.
    Remark,
    /// What a piece of a source begins with.
    Piece,
}

impl Class<Symbol> for Character {
    ghost use Rattle.wy_lex.specs.Symbols as symbols;

    ghost has = { symbols.holds };

    fn has(&self, symbol: Symbol) -> bool {
        let c = symbol.character;
        match self {
            Character::Nothing => false,
            Character::Any => true,
            Character::Is(d) => c == *d,
            Character::Blank => is_blank(c),
            Character::LineEnd => c == '\n',
            Character::NoLineEnd => c != '\n',
            Character::Start => wy_data::is_start(c),
            Character::Part => wy_data::is_part(c),
            Character::Digit => c.is_ascii_digit(),
            Character::Plain => is_plain(c),
            Character::Inside => is_plain(c) || c == '\\',
            Character::Sign => is_sign(c),
            Character::Other => is_other(c),
            Character::Remark => c == '/' || c == '*',
            Character::Piece => is_piece(c),
        }
    }
}

fn is_blank(c: char) -> bool
    ensures { result ≡ symbols.is_blank c }
{
    c == ' ' || c == '\t'
}

fn is_plain(c: char) -> bool
    ensures { result ≡ symbols.is_plain c }
{
    ' ' <= c && c <= '~' && c != '"' && c != '\\'
}

fn is_sign(c: char) -> bool
    ensures { result ≡ symbols.is_sign c }
{
    matches!(
        c,
        '(' | ')'
            | '['
            | ']'
            | '{'
            | '}'
            | ','
            | ':'
            | ';'
            | '.'
            | '='
            | '!'
            | '<'
            | '>'
            | '+'
            | '-'
            | '*'
            | '%'
            | '&'
            | '|'
    )
}

fn is_other(c: char) -> bool
    ensures { result ≡ symbols.is_other c }
{
    c.is_ascii_digit() || c == '"' || is_sign(c)
}

fn is_piece(c: char) -> bool
    ensures { result ≡ symbols.is_piece c }
{
    wy_data::is_start(c) || is_other(c) || c == '/' || is_blank(c) || c == '\n'
}
