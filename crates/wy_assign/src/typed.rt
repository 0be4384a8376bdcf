//! The check of a well-typed program.
ghost use Rattle.std.specs.Prelude.{◌≡◌, ◌≢◌, OnOk, IfErr, MatchResult};
ghost use Rattle.wy_assign.specs.Assigned as definition;
ghost use Rattle.wy_assign.specs.declared.fault.AssignFault.{AssignFault};
ghost use Rattle.wy_flow_spec.specs.typing.TypedPrograms.{core_of};

pub use crate::AssignFault;
use std::alloc::Global;
use wy_flow_spec::typing::Typed;

/// Whether each use of a variable follows an assignment to it on each path through the syntax, and
/// each path of a body with a result ends in `return` or `fail`. Its types say nothing about the
/// paths: this is the check of its core, with the same faults at the same places and the same cost.
pub fn assigned(alloc: Global, typed: &Typed) -> Result<(), AssignFault>
    ensures sound { OnOk result (definition.IsAssigned (core_of typed.now)) }
    ensures complete { definition.IsAssigned (core_of typed.now) → IfErr result (λ e. e ≡ AssignFault.NoMemory) }
    ensures fault { IfErr result (λ e. e ≢ AssignFault.NoMemory → definition.IsFault (core_of typed.now) e) }
    ensures exact { (f : AssignFault) → definition.IsFault (core_of typed.now) f → MatchResult result (λ t. ⊥) (λ e. e ≢ AssignFault.NoMemory → e ≡ f) }
{
    crate::assigned(alloc, typed.core())
}
