//! Why a program is not well typed.
ghost use Rattle.std.specs.Prelude.{◌≡◌};
ghost use Rattle.wy_flow_spec.specs.declared.typing.fault.FlowFault.TheVariants.{NoMemory};

use std::alloc::{AllocError, AllocFailed};

/// Why a program is not well typed, with the byte offset of the node that owes what fails. The first
/// fault in the order of the walk is given.
#[derive(Clone, Copy, Debug, PartialEq, Eq)]
pub enum FlowFault {
    /// A value may be outside of the type that it must have: at a declaration, an assignment, a call
    /// or `return`.
    NotSubtype(u32),
    /// What is indexed, or whose length is taken, may be no array: at its `[` or `|`.
    NotArray(u32),
    /// What a field is taken of may be no record with it: at the dot.
    NoField(u32),
    /// A test, an operand of `!`, `&&` or `||`, the body of a quantifier or a clause may be no truth
    /// value: at the statement, the operator, the quantifier or the clause.
    NotBool(u32),
    /// An operand of arithmetic or of a comparison, an index, a count or a bound of a quantifier may
    /// be no number: at the operator, the bracket or the quantifier.
    NotInt(u32),
    /// A question about types is too wide to be answered: at the node that asks it.
    TypeWide(u32),
    NoMemory,
}

impl From<AllocError> for FlowFault {
    ghost from_gives = { λ _ e. e ≡ NoMemory };

    fn from(_: AllocError) -> FlowFault {
        FlowFault::NoMemory
    }
}

impl<T: Drop> From<AllocFailed<T>> for FlowFault {
    ghost from_gives = { λ _ e. e ≡ NoMemory };

    fn from(_: AllocFailed<T>) -> FlowFault {
        FlowFault::NoMemory
    }
}
