//! Answers of three values.

/// What literals say of a formula.
#[derive(Clone, Copy, Debug, PartialEq, Eq)]
pub enum Verdict {
    /// It holds where they do.
    Yes,
    /// It fails where they hold.
    No,
    /// They don't decide it.
    Open,
}
