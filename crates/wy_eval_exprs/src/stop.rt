//! How an evaluation ends without an answer.
ghost use Rattle.wy_sem.specs.Meter as sem;
ghost use Rattle.wy_sem.specs.Meter.{Done};
ghost use Rattle.wy_eval_exprs.specs.Outcomes.{Gives, itself};

use std::alloc::{AllocError, AllocFailed};
use wy_term::CondKind;

/// Why an evaluation has no answer.
#[derive(Drop)]
pub enum Stop {
    /// A fault of a kind, at a place, a byte offset.
    Fault(CondKind, u32),
    /// A tick was wanted and none was left.
    More,
    /// A turn of a contract was wanted beyond the limit.
    Spent,
    /// Want of memory.
    NoMemory,
}

impl From<AllocError> for Stop {
    ghost use Rattle.std.specs.Prelude.{◌≡◌};
    ghost use Rattle.wy_eval_exprs.specs.declared.stop.Stop.TheVariants.{NoMemory};

    ghost from_gives = { λ _ e. e ≡ NoMemory };

    fn from(_: AllocError) -> Stop {
        Stop::NoMemory
    }
}

impl<T: Drop> From<AllocFailed<T>> for Stop {
    ghost use Rattle.std.specs.Prelude.{◌≡◌};
    ghost use Rattle.wy_eval_exprs.specs.declared.stop.Stop.TheVariants.{NoMemory};

    ghost from_gives = { λ _ e. e ≡ NoMemory };

    fn from(_: AllocFailed<T>) -> Stop {
        Stop::NoMemory
    }
}

/// Goes on where the test is true; else it is a fault of this kind at this place.
pub fn check(truth: bool, kind: CondKind, at: u32) -> Result<(), Stop>
    ensures value { (m : sem.Meter) → Gives itself (sem.check truth kind at (Done tt) m) result m }
{
    if truth {
        Ok(())
    } else {
        Err(Stop::Fault(kind, at))
    }
}
