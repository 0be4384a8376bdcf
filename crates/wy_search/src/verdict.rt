//! Verdicts.
use wy_term::Terms;

/// Why a leaf is open.
#[derive(Clone, Copy, Debug, PartialEq, Eq)]
pub enum Why {
    /// Nothing more is known.
    Still,
    /// More than 4,096 forms would have stood in the elimination of its variables.
    Crowded,
    /// A number left 128 bits in the elimination of its variables.
    Wide,
}

/// The first open leaf: its number, from 1, left to right, why it is open, and its literals, each an atom and whether it
/// holds, in terms of their own.
#[derive(Drop)]
pub struct OpenLeaf {
    pub leaf: u64,
    pub why: Why,
    pub terms: Terms,
    pub literals: Vec<(u32, bool)>,
}

/// How a search ends.
#[derive(Drop)]
pub enum Verdict {
    /// Every leaf is closed; there are so many.
    Found(u64),
    /// A leaf is open.
    Open(OpenLeaf),
    /// There are more leaves than the budget allows, and none of the first so many is open.
    Spent,
}
