//! Limits of a list of conditions.

/// Why a program has no list of conditions.
#[derive(Clone, Copy, Debug, PartialEq, Eq)]
pub enum VcFault {
    /// There are more than 16,384.
    TooManyConds,
    /// The condition with this number, from 1, has more than 16,384 different terms and formulas, or it and those before it together have
    /// more than 4,194,304.
    TooManyTerms(u32),
    /// Memory ran out.
    NoMemory,
}
