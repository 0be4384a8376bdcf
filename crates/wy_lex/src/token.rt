//! Tokens.
use wy_data::{Bytes, Name};

/// A token, and the byte offset where it stands.
#[derive(Debug, Drop)]
pub struct Token {
    pub kind: TokenKind,
    pub at: u32,
}

/// What a token is: a word of the language, a symbol, a name, a literal, or a mark of the layout.
#[derive(Debug, Drop)]
pub enum TokenKind {
    TypeWord,
    Is,
    Where,
    Function,
    Method,
    Property,
    Requires,
    Ensures,
    If,
    Else,
    While,
    Do,
    Switch,
    Case,
    Default,
    For,
    In,
    Return,
    Break,
    Continue,
    Assert,
    Fail,
    Skip,
    All,
    Some,
    Null,
    Bool,
    Int,
    Any,
    Void,
    True,
    False,
    Import,
    /// `(`
    OpenParen,
    /// `)`
    CloseParen,
    /// `[`
    OpenBracket,
    /// `]`
    CloseBracket,
    /// `{`
    OpenBrace,
    /// `}`
    CloseBrace,
    /// `,`
    Comma,
    /// `:`
    Colon,
    /// `;`
    Semicolon,
    /// `.`
    Dot,
    /// `..`
    Range,
    /// `->`
    Arrow,
    /// `=`
    Assign,
    /// `==`
    Equal,
    /// `!=`
    NotEqual,
    /// `<`
    Less,
    /// `<=`
    LessEqual,
    /// `>`
    Greater,
    /// `>=`
    GreaterEqual,
    /// `+`
    Plus,
    /// `-`
    Minus,
    /// `*`
    Star,
    /// `/`
    Slash,
    /// `%`
    Percent,
    /// `!`
    Not,
    /// `&&`
    And,
    /// `||`
    Or,
    /// `==>`
    Implies,
    /// `|`
    Bar,
    /// `&`
    Ampersand,
    /// A name, which is none of the words.
    Name(Name),
    /// A numeral, from 0 to 2^95.
    Numeral(i128),
    /// A string, by its codes.
    Text(Bytes),
    /// A line ends, at its line end; the last one ends at the length of the source if nothing ends it.
    LineEnd,
    /// A block begins, at the first token of its first line.
    BlockIn,
    /// A block ends, at the first token of the line behind it, or at the length of the source.
    BlockOut,
    /// The source ends, at its length. It stands once, as the last token.
    End,
}
