//! What the grammar refuses besides tokens that no rule goes on with.

/// What the rules of the grammar refuse.
#[derive(Clone, Copy, Debug, PartialEq, Eq)]
pub enum Kind {
    Mixed,
    Deep,
    TooMany,
}
