//! Calls.
ghost use Rattle.std.specs.Prelude.{◌≡◌, OnOk, slice_get};
ghost use Rattle.wy_core.specs.CoreSeen.{seen_ty};
ghost use Rattle.wy_flow_exprs.specs.Seen.{seen_all, seen_flow, seen_found, seen_program, seen_types};
ghost use Rattle.wy_types.specs.Names.{types_of};
ghost use Rattle.wy_types.specs.Questions.{IsOver};
ghost use Rattle.wy_types.specs.Recursion.{RecurThroughParts};
ghost use Rattle.wy_flow_spec.specs.typing.Outcomes.{Meets};
ghost use Rattle.wy_flow_spec.specs.typing.Calls as rule;
ghost use Rattle.wy_flow_exprs.specs.Seen.{seen_signature};

use crate::checks::{is_within, norm_at};
use crate::signatures::Signature;
use crate::walk::{Found, Program, Walk, of_type};
use std::alloc::Global;
use wy_core::Ty;
use wy_flow_spec::environment::{Shared, void_type};
use wy_flow_spec::typing::FlowFault;
use wy_items::{Items, at as item_at};
use wy_types::{Names, Question};

// Each argument is within its parameter's type, from left to right.
fn fit(
    alloc: Global,
    names: &Names,
    question: &mut Question,
    at: u32,
    args: &[Shared],
    params: &[Ty],
) -> Result<(), FlowFault>
    requires recursion { RecurThroughParts (types_of names.now) }
    requires over { IsOver (types_of names.now) question.old }
    ensures value { Meets (rule.Fit (types_of names.now) at (seen_types args.now) (seen_types params.now)) (λ (u : Unit {0}). u) result }
    ensures over { OnOk result (IsOver (types_of names.now) question.new) }
{
    let mut place = 0;
    for arg in args {
        match item_at(params, place) {
            None => return Ok(()),
            Some(param) => {
                let fault = FlowFault::NotSubtype(at);
                is_within(alloc, names, question, at, fault, arg.get(), param)?;
                place += 1;
            }
        }
    }
    Ok(())
}

/// Each argument of the call at `at` is within its parameter's type, or `NotSubtype`.
pub fn check_args(
    alloc: Global,
    program: &Program,
    walk: &mut Walk,
    at: u32,
    routine: u32,
    args: &[Shared],
) -> Result<(), FlowFault>
    requires recursion { RecurThroughParts (types_of program.now.names) }
    requires over { IsOver (types_of program.now.names) walk.old.question }
    ensures value { Meets (rule.FitCall (seen_program program.now) at routine (seen_types args.now)) (λ (u : Unit {0}). u) result }
    ensures over { OnOk result (IsOver (types_of program.now.names) walk.new.question) }
    ensures flow { OnOk result (seen_flow walk.new ≡ seen_flow walk.old) }
{
    match program.signatures.get(routine as usize) {
        None => Ok(()),
        Some(signature) => fit(
            alloc,
            &program.names,
            &mut walk.question,
            at,
            args,
            signature.params.as_slice(),
        ),
    }
}

// What the call gives.
fn result_type(
    alloc: Global,
    program: &Program,
    walk: &mut Walk,
    at: u32,
    routine: u32,
) -> Result<Shared, FlowFault>
    requires recursion { RecurThroughParts (types_of program.now.names) }
    requires over { IsOver (types_of program.now.names) walk.old.question }
    ensures value { Meets (rule.GivenBy (types_of program.now.names) at (slice_get (seen_program program.now).signatures routine)) seen_ty result }
    ensures over { OnOk result (IsOver (types_of program.now.names) walk.new.question) }
    ensures flow { OnOk result (seen_flow walk.new ≡ seen_flow walk.old) }
{
    match program.signatures.get(routine as usize) {
        None => Ok(void_type(alloc, at)?),
        Some(signature) => given_by(alloc, program, walk, at, signature),
    }
}

fn given_by(
    alloc: Global,
    program: &Program,
    walk: &mut Walk,
    at: u32,
    signature: &Signature,
) -> Result<Shared, FlowFault>
    requires recursion { RecurThroughParts (types_of program.now.names) }
    requires over { IsOver (types_of program.now.names) walk.old.question }
    ensures value { Meets (rule.ResultOf (types_of program.now.names) at (seen_signature signature.now).result) seen_ty result }
    ensures over { OnOk result (IsOver (types_of program.now.names) walk.new.question) }
    ensures flow { OnOk result (seen_flow walk.new ≡ seen_flow walk.old) }
{
    match &signature.result {
        None => Ok(void_type(alloc, at)?),
        Some(ty) => norm_at(alloc, &program.names, &mut walk.question, at, ty),
    }
}

/// A call with these arguments.
pub fn call(
    alloc: Global,
    program: &Program,
    walk: &mut Walk,
    at: u32,
    routine: u32,
    args: Items<Shared>,
) -> Result<Found, FlowFault>
    requires recursion { RecurThroughParts (types_of program.now.names) }
    requires over { IsOver (types_of program.now.names) walk.old.question }
    ensures value { Meets (rule.CallOf (seen_program program.now) at routine (seen_all (seen_flow walk.old) args)) (seen_found (seen_flow walk.new)) result }
    ensures over { OnOk result (IsOver (types_of program.now.names) walk.new.question) }
{
    check_args(alloc, program, walk, at, routine, args.as_slice())?;
    let ty = result_type(alloc, program, walk, at, routine)?;
    of_type(alloc, walk, ty)
}
