//! Why a question about types has no answer.
ghost use Rattle.std.specs.Prelude.{◌≡◌};
ghost use Rattle.wy_canon.specs.declared.fault.TypeFault.TheVariants.{NoMemory};

use std::alloc::{AllocError, AllocFailed};

/// Why a question about types has no answer.
#[derive(Clone, Copy, Debug, PartialEq, Eq)]
pub enum TypeFault {
    /// The question is wide: a merge on its way has more than 16,384 pairs, or it reaches more than
    /// 16,384 conjuncts.
    TypeWide,
    NoMemory,
}

impl From<AllocError> for TypeFault {
    ghost from_gives = { λ _ e. e ≡ NoMemory };

    fn from(_: AllocError) -> TypeFault {
        TypeFault::NoMemory
    }
}

impl<T: Drop> From<AllocFailed<T>> for TypeFault {
    ghost from_gives = { λ _ e. e ≡ NoMemory };

    fn from(_: AllocFailed<T>) -> TypeFault {
        TypeFault::NoMemory
    }
}
