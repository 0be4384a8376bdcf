//! Why a program has no core.
ghost use Rattle.std.specs.Prelude.{◌≡◌};
ghost use Rattle.wy_names.specs.NameFaults as spec;

use std::alloc::AllocError;
use wy_names_scope::{Cause, Fault};

/// Why a program is refused, with the byte offset where.
#[derive(Clone, Copy, Debug, PartialEq, Eq)]
pub enum NameFault {
    /// No such type, variable, function, method or property is in scope, at its use.
    Unknown(u32),
    /// A declaration, variable in scope, parameter, field of one record or built-in name is declared
    /// again: a declaration or statement at its first token, a parameter, a result's or a type's variable
    /// and a field of a record type at its type, a bound name at its quantifier, a field of a record at
    /// its value.
    Twice(u32),
    /// A type recurs with no record or array on the way, at the use of a name on the way; or through a
    /// test of a clause, at that test's mention of a name, or at the use of a property that brings it in.
    BareRecursion(u32),
    /// The use of a property whose expansion has no end.
    PropertyLoop(u32),
    /// A function or method is called inside a contract or a quantifier, at the call; or a property puts
    /// an argument with a call into a quantifier, at the property's use.
    CallInContract(u32),
    /// A function calls a method, at the call.
    MethodInFunction(u32),
    /// A wrong number of arguments, a method without result used as a value, `return e` without a result
    /// declared, or `return` alone with one.
    Arity(u32),
    /// `break` or `continue` outside a loop.
    OutsideLoop(u32),
    /// A whole expression has more than 4,096 nodes or is higher than 400, its properties expanded and
    /// lowered: at its root, or at the statement whose lowering made it.
    TooLarge(u32),
    NoMemory,
}

/// The fault by its cause.
pub fn fault_named(fault: Fault) -> NameFault
    ensures value { result ≡ spec.fault_named fault }
{
    match fault.cause {
        Cause::Unknown => NameFault::Unknown(fault.at),
        Cause::Twice => NameFault::Twice(fault.at),
        Cause::BareRecursion => NameFault::BareRecursion(fault.at),
        Cause::PropertyLoop => NameFault::PropertyLoop(fault.at),
        Cause::CallInContract => NameFault::CallInContract(fault.at),
        Cause::MethodInFunction => NameFault::MethodInFunction(fault.at),
        Cause::Arity => NameFault::Arity(fault.at),
        Cause::OutsideLoop => NameFault::OutsideLoop(fault.at),
        Cause::TooLarge => NameFault::TooLarge(fault.at),
    }
}

impl From<AllocError> for NameFault {
    ghost use Rattle.std.specs.Prelude.{◌≡◌};
    ghost use Rattle.wy_names.specs.declared.name_fault.NameFault.TheVariants.{NoMemory};

    ghost from_gives = { λ _ e. e ≡ NoMemory };

    fn from(_: AllocError) -> NameFault {
        NameFault::NoMemory
    }
}
