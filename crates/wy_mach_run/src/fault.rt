//! Why words start no run.
ghost use Rattle.std.specs.Prelude.{◌≡◌};
ghost use Rattle.wy_mach_run.specs.Starting.{fault_for};

use wy_value::ValueFault;

/// Why words start no run of a typed program. Of several reasons the first in the order of the variants is given.
#[derive(Clone, Copy, Debug, PartialEq, Eq)]
pub enum StartFault {
    /// The program declares no function or method of that name.
    NoEntry,
    /// The argument text has this fault, at a byte of it: `Shape`, `Range` or `Deep`, never want of memory.
    Argument(ValueFault),
    /// The entry takes another number of arguments: so many.
    OtherCount(u32),
    /// The argument with this number, from 1, isn't of its parameter's type.
    OtherType(u32),
    /// The requires clause with this number, from 1, isn't true of the arguments, or faults.
    RequiresFails(u32),
    /// The test of types and clauses makes more than 10,000,000 visits of types and turns of quantifiers.
    TurnsSpent,
    NoMemory,
}

/// The refusal where reading the argument text has this fault.
pub fn refusal_for(fault: ValueFault) -> StartFault
    ensures value { result ≡ fault_for fault }
{
    match fault {
        ValueFault::NoMemory => StartFault::NoMemory,
        _ => StartFault::Argument(fault),
    }
}
