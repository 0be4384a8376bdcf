//! What is known of a condition.
ghost use Rattle.std.specs.Prelude.{◌≡◌};
ghost use Rattle.wy_batch.specs.Known as known;
ghost use Rattle.wy_batch.specs.Seen as seen;

use wy_search::OpenLeaf;

/// How it ends with a condition.
#[derive(Drop)]
pub enum End {
    /// The certificate that was supplied for it is valid.
    Supplied,
    /// Its search closed so many leaves, which are all that there are.
    Found { leaves: u64 },
    /// Its search leaves this leaf open.
    Open(OpenLeaf),
    /// Its search has more leaves than the budget allows, and none of the first so many is open.
    Spent,
}

/// What is known of a condition.
#[derive(Drop)]
pub struct Verdict {
    /// The number, from 1, of the first bad step of the certificate that was supplied for it, if that isn't valid.
    pub bad_step: Option<u64>,
    /// How it ends.
    pub end: End,
}

impl End {
    /// Whether a leaf stays open.
    pub fn is_open(&self) -> bool
        ensures value { result ≡ known.is_open (seen.seen_end self.now) }
    {
        match self {
            End::Open(_) => true,
            End::Supplied | End::Found { .. } | End::Spent => false,
        }
    }

    /// Whether the budget is spent.
    pub fn is_spent(&self) -> bool
        ensures value { result ≡ known.is_spent (seen.seen_end self.now) }
    {
        match self {
            End::Spent => true,
            End::Supplied | End::Found { .. } | End::Open(_) => false,
        }
    }

    /// Whether a valid certificate was supplied, or the search closed all leaves.
    pub fn is_closed(&self) -> bool
        ensures value { result ≡ known.is_closed (seen.seen_end self.now) }
    {
        match self {
            End::Supplied | End::Found { .. } => true,
            End::Open(_) | End::Spent => false,
        }
    }
}
