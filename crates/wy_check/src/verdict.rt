//! What is known of a condition.
ghost use Rattle.std.specs.Prelude.{◌≡◌, ◌↔◌, IsTrue};

/// What is known of a condition.
#[derive(Clone, Copy, Debug, PartialEq, Eq)]
pub enum Verdict {
    /// A valid certificate was given.
    Supplied,
    /// None was given.
    Missing,
    /// One was given, and its step with this number, from 1, isn't valid.
    Bad(u64),
}

impl Verdict {
    /// Whether no certificate was given.
    pub fn is_missing(self) -> bool
        ensures value { IsTrue result ↔ (self ≡ Verdict.Missing) }
    {
        matches!(self, Verdict::Missing)
    }
}
