//! Why a source has no tokens.
use std::alloc::AllocError;

/// Why bytes are no tokens. Each fault has the byte offset where it stands. `NotUtf8` goes before all
/// others, and of these the one that stands first is given.
#[derive(Clone, Copy, Debug, PartialEq, Eq)]
pub enum LexFault {
    /// The first byte that is no part of UTF-8.
    NotUtf8(u32),
    /// A character that begins no token, as `$`, or that may not stand in a string, as a letter outside
    /// of ASCII, the line end of a string that isn't closed, or a backslash that begins no escape.
    BadChar(u32),
    /// The first token of a line whose indentation is that of no open block, and that begins none either.
    BadIndent(u32),
    /// A numeral above 2^95, or one that runs into a name, as `9x`.
    BadNumeral(u32),
    /// A `/*` that no `*/` follows.
    OpenComment(u32),
    NoMemory,
}

/// What the rules of the grammar refuse.
#[derive(Clone, Copy, Debug, PartialEq, Eq)]
pub enum Kind {
    /// A backslash that begins no escape.
    BadEscape,
    BadIndent,
    BadNumeral,
    OpenComment,
}
