//! Why tokens are no program.
use std::alloc::AllocError;

/// Why tokens are no program. Each fault has the byte offset of the token where it stands; the one
/// that stands first is given, and of several at one place the first in this order.
#[derive(Clone, Copy, Debug, PartialEq, Eq)]
pub enum ParseFault {
    /// The first token after which no program goes on, as the `)` in `(1 + )`. A numeral 2^95 that no
    /// minus touches is one too.
    Unexpected(u32),
    /// The first `&&` or `||` that would mix with the other without brackets, as in `a && b || c`.
    Mixed(u32),
    /// The first token that stands inside more than 100 open brackets, bars, prefix operators, right
    /// sides of `==>` and blocks together. Where no other fault stands, it is also the first node of
    /// an expression or of a type with a height of 101.
    Deep(u32),
    /// The first token of the declaration that is one more than 4,096.
    TooMany(u32),
    NoMemory,
}
