//! Why bytes are no certificates.
ghost use Rattle.std.specs.Prelude.{◌≡◌};
ghost use Rattle.wy_cert.specs.declared.fault.CertFault.TheVariants.{NoMemory};

use std::alloc::{AllocError, AllocFailed};

/// Why bytes are no certificates. Each fault has the line where it stands, from 1. The fault at the least line is given,
/// and of several at a line the first of these, but that `Truncated` goes before `BadStep` on a last line without its end.
#[derive(Clone, Copy, Debug, PartialEq, Eq)]
pub enum CertFault {
    /// Line 1 is neither `wycert 1` nor `wycert 2` with its end.
    BadHeader(u64),
    /// A line outside the grammar, a step after a complete tree, a `cond` or `end` line before the tree is complete, or a
    /// line after `end`.
    BadStep(u64),
    /// The text ends here without `end` and its line end.
    Truncated(u64),
    /// A condition that has a certificate already.
    TwiceCond(u64),
    /// A condition that there isn't.
    NoSuchCond(u64),
    NoMemory,
}

impl From<AllocError> for CertFault {
    ghost from_gives = { λ _ e. e ≡ NoMemory };

    fn from(_: AllocError) -> Self {
        CertFault::NoMemory
    }
}

impl<T: Drop> From<AllocFailed<T>> for CertFault {
    ghost from_gives = { λ _ e. e ≡ NoMemory };

    fn from(_: AllocFailed<T>) -> Self {
        CertFault::NoMemory
    }
}

impl From<wy_term_text::NoMemory> for CertFault {
    ghost from_gives = { λ _ e. e ≡ NoMemory };

    fn from(_: wy_term_text::NoMemory) -> Self {
        CertFault::NoMemory
    }
}
