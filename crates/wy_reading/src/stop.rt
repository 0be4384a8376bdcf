//! Why reading stops.
use std::alloc::AllocError;

/// Why a reader stops, with faults of the kinds `X`. A place is the number of symbols that are left,
/// the one that is refused included, so 0 is the end of the text.
#[derive(Clone, Copy, Debug, PartialEq, Eq)]
pub enum Stop<X> {
    /// The first symbol after which no text of the grammar goes on; the end counts as a symbol.
    Unexpected(usize),
    /// A fault of the given kind, where a rule of the grammar puts it.
    Fault(X, usize),
    NoMemory,
}

impl<X> From<AllocError> for Stop<X> {
    ghost use Rattle.std.specs.Prelude.{◌≡◌};
    ghost use Rattle.wy_reading.specs.declared.stop.Stop.TheVariants.{NoMemory};

    ghost from_gives = { λ _ stop. stop ≡ NoMemory };

    fn from(_: AllocError) -> Stop<X> {
        Stop::NoMemory
    }
}
