//! Checks of a node, each with the fault that stands there.
ghost use Rattle.std.specs.Prelude.{◌≡◌, OnOk};
ghost use Rattle.wy_core.specs.CoreSeen.{seen_ty};
ghost use Rattle.wy_types.specs.Names.{types_of};
ghost use Rattle.wy_types.specs.Questions.{IsOver};
ghost use Rattle.wy_types.specs.Recursion.{RecurThroughParts};
ghost use Rattle.wy_flow_spec.specs.typing.Outcomes.{Meets};
ghost use Rattle.wy_flow_spec.specs.typing.Asked as asked;
ghost use Rattle.wy_flow_exprs.specs.checks.Refusals as spec;

use crate::checks::terms::{array_of, plain};
use std::alloc::Global;
use wy_canon::TypeFault;
use wy_core::{Ty, TyKind};
use wy_flow_spec::typing::FlowFault;
use wy_subtype::subtype_in;
use wy_types::{Names, Question};

/// The fault of a node that asks a question without an answer.
pub fn asked_at(at: u32, fault: TypeFault) -> FlowFault
    ensures value { result ≡ spec.asked_at at fault }
{
    match fault {
        TypeFault::TypeWide => FlowFault::TypeWide(at),
        TypeFault::NoMemory => FlowFault::NoMemory,
    }
}

// The fault, where the answer is no.
fn verdict(yes: bool, fault: FlowFault) -> Result<(), FlowFault>
    ensures value { result ≡ spec.verdict yes fault }
{
    if yes { Ok(()) } else { Err(fault) }
}

/// The type is within the other, by upward readings, or the fault; `TypeWide` where the question is
/// wide.
pub fn is_within(
    alloc: Global,
    names: &Names,
    question: &mut Question,
    at: u32,
    fault: FlowFault,
    ty: &Ty,
    other: &Ty,
) -> Result<(), FlowFault>
    requires recursion { RecurThroughParts (types_of names.now) }
    requires over { IsOver (types_of names.now) question.old }
    ensures value { Meets (asked.Within (types_of names.now) at fault (seen_ty ty.now) (seen_ty other.now)) (λ (u : Unit {0}). u) result }
    ensures over { OnOk result (IsOver (types_of names.now) question.new) }
{
    match subtype_in(alloc, names, question, ty, other) {
        Ok(yes) => verdict(yes, fault),
        Err(refusal) => Err(asked_at(at, refusal)),
    }
}

/// The type is within `int`, or `NotInt`.
pub fn is_int(
    alloc: Global,
    names: &Names,
    question: &mut Question,
    at: u32,
    ty: &Ty,
) -> Result<(), FlowFault>
    requires recursion { RecurThroughParts (types_of names.now) }
    requires over { IsOver (types_of names.now) question.old }
    ensures value { Meets (asked.IsInt (types_of names.now) at (seen_ty ty.now)) (λ (u : Unit {0}). u) result }
    ensures over { OnOk result (IsOver (types_of names.now) question.new) }
{
    let int = plain(at, TyKind::Int);
    is_within(alloc, names, question, at, FlowFault::NotInt(at), ty, &int)
}

/// The type is within `bool`, or `NotBool`.
pub fn is_bool(
    alloc: Global,
    names: &Names,
    question: &mut Question,
    at: u32,
    ty: &Ty,
) -> Result<(), FlowFault>
    requires recursion { RecurThroughParts (types_of names.now) }
    requires over { IsOver (types_of names.now) question.old }
    ensures value { Meets (asked.IsBool (types_of names.now) at (seen_ty ty.now)) (λ (u : Unit {0}). u) result }
    ensures over { OnOk result (IsOver (types_of names.now) question.new) }
{
    let bool_ty = plain(at, TyKind::Bool);
    is_within(
        alloc,
        names,
        question,
        at,
        FlowFault::NotBool(at),
        ty,
        &bool_ty,
    )
}

/// The type is within the arrays, or `NotArray`.
pub fn is_array(
    alloc: Global,
    names: &Names,
    question: &mut Question,
    at: u32,
    ty: &Ty,
) -> Result<(), FlowFault>
    requires recursion { RecurThroughParts (types_of names.now) }
    requires over { IsOver (types_of names.now) question.old }
    ensures value { Meets (asked.IsArray (types_of names.now) at (seen_ty ty.now)) (λ (u : Unit {0}). u) result }
    ensures over { OnOk result (IsOver (types_of names.now) question.new) }
{
    let arrays = array_of(alloc, at, plain(at, TyKind::Any))?;
    is_within(
        alloc,
        names,
        question,
        at,
        FlowFault::NotArray(at),
        ty,
        &arrays,
    )
}
