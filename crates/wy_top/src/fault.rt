//! Why a source has no conditions.
ghost use Rattle.std.specs.Prelude.{◌≡◌};
ghost use Rattle.wy_top.specs.Faults as spec;

use wy_top_probe::Refusal;
use wy_vc::VcFault;

/// Why a source has no list of conditions.
#[derive(Clone, Copy, Debug, PartialEq, Eq)]
pub enum OwedFault {
    /// The source is refused.
    Source(Refusal),
    /// Its program's conditions pass a limit.
    Limit(VcFault),
}

/// Whether memory ran out, so that nothing is said of the source.
pub fn is_no_memory(fault: OwedFault) -> bool
    ensures value { result ≡ spec.is_no_memory fault }
{
    match fault {
        OwedFault::Source(refusal) => wy_top_probe::is_no_memory(refusal),
        OwedFault::Limit(VcFault::NoMemory) => true,
        OwedFault::Limit(VcFault::TooManyConds | VcFault::TooManyTerms(_)) => false,
    }
}

/// The byte offset where it stands; a limit stands at the source's first byte.
pub fn offset(fault: OwedFault) -> u32
    ensures value { result ≡ spec.offset fault }
{
    match fault {
        OwedFault::Source(refusal) => wy_top_probe::offset(refusal),
        OwedFault::Limit(_) => 0,
    }
}

/// The word for it; none for want of memory.
pub fn word(fault: OwedFault) -> &'static str
    ensures value { result.now ≡ spec.word fault }
{
    match fault {
        OwedFault::Source(refusal) => wy_top_probe::word(refusal),
        OwedFault::Limit(VcFault::TooManyConds) => "TooManyConds",
        OwedFault::Limit(VcFault::TooManyTerms(_)) => "TooManyTerms",
        OwedFault::Limit(VcFault::NoMemory) => "",
    }
}
