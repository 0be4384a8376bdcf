//! Values that come into variables.
ghost use Rattle.std.specs.Prelude.{◌≡◌, map, OnOk};
ghost use Rattle.wy_core.specs.CoreSeen.{seen_expr, seen_option, seen_step, seen_ty};
ghost use Rattle.wy_flow_spec.specs.environment.Seen.{seen_environment, seen_slot};
ghost use Rattle.wy_flow.specs.States.{seen_state};
ghost use Rattle.wy_flow_exprs.specs.Seen.{seen_flow, seen_program};
ghost use Rattle.wy_types.specs.Names.{types_of};
ghost use Rattle.wy_types.specs.Questions.{IsOver};
ghost use Rattle.wy_types.specs.Recursion.{RecurThroughParts};
ghost use Rattle.wy_flow_spec.specs.typing.Outcomes.{Meets};
ghost use Rattle.wy_flow_spec.specs.typing.States as states;
ghost use Rattle.wy_flow_spec.specs.typing.Statements as spec;

use crate::paths::{path_types, updated};
use crate::state::{State, declare, declared_type};
use std::alloc::Global;
use wy_core::{Expr, Step, Ty};
use wy_flow_exprs::checks::{inter_of, is_within, norm_at};
use wy_flow_exprs::{Program, Walk, typed};
use wy_flow_spec::environment::{Environment, Shared};
use wy_flow_spec::typing::FlowFault;

/// The type is within the other, or `NotSubtype`.
pub fn fits(
    alloc: Global,
    program: &Program,
    walk: &mut Walk,
    at: u32,
    ty: &Ty,
    other: &Ty,
) -> Result<(), FlowFault>
    requires recursion { RecurThroughParts (types_of program.now.names) }
    requires over { IsOver (types_of program.now.names) walk.old.question }
    ensures value { Meets (states.Fits (types_of program.now.names) at (seen_ty ty.now) (seen_ty other.now)) (λ (u : Unit {0}). u) result }
    ensures over { OnOk result (IsOver (types_of program.now.names) walk.new.question) }
    ensures flow { OnOk result (seen_flow walk.new ≡ seen_flow walk.old) }
{
    let fault = FlowFault::NotSubtype(at);
    is_within(
        alloc,
        &program.names,
        &mut walk.question,
        at,
        fault,
        ty,
        other,
    )
}

// The variable has the normal type of this type, where a path gets here.
fn give_normal(
    alloc: Global,
    program: &Program,
    walk: &mut Walk,
    at: u32,
    env: &mut Environment,
    variable: u32,
    ty: &Ty,
) -> Result<(), FlowFault>
    requires recursion { RecurThroughParts (types_of program.now.names) }
    requires over { IsOver (types_of program.now.names) walk.old.question }
    ensures value { Meets (states.GiveNormal (types_of program.now.names) at variable (seen_ty ty.now) (seen_environment env.old)) (λ (u : Unit {0}). seen_environment env.new) result }
    ensures over { OnOk result (IsOver (types_of program.now.names) walk.new.question) }
    ensures flow { OnOk result (seen_flow walk.new ≡ seen_flow walk.old) }
{
    if !env.reached {
        return Ok(());
    }
    let made = norm_at(alloc, &program.names, &mut walk.question, at, ty)?;
    env.give(variable, made)?;
    Ok(())
}

// A value of this type comes into a variable of the declared one.
fn comes_into(
    alloc: Global,
    program: &Program,
    walk: &mut Walk,
    at: u32,
    env: &mut Environment,
    variable: u32,
    value: &Ty,
    declared: &Ty,
) -> Result<(), FlowFault>
    requires recursion { RecurThroughParts (types_of program.now.names) }
    requires over { IsOver (types_of program.now.names) walk.old.question }
    ensures value { Meets (states.ComesInto (types_of program.now.names) at variable (seen_ty value.now) (seen_ty declared.now) (seen_environment env.old)) (λ (u : Unit {0}). seen_environment env.new) result }
    ensures over { OnOk result (IsOver (types_of program.now.names) walk.new.question) }
    ensures flow { OnOk result (seen_flow walk.new ≡ seen_flow walk.old) }
{
    fits(alloc, program, walk, at, value, declared)?;
    let both = inter_of(alloc, at, value, declared)?;
    give_normal(alloc, program, walk, at, env, variable, &both)
}

// The same, where the variable was declared.
fn into_declared(
    alloc: Global,
    program: &Program,
    walk: &mut Walk,
    at: u32,
    env: &mut Environment,
    variable: u32,
    value: &Ty,
    declared: &Option<Shared>,
) -> Result<(), FlowFault>
    requires recursion { RecurThroughParts (types_of program.now.names) }
    requires over { IsOver (types_of program.now.names) walk.old.question }
    ensures value { Meets (spec.IntoDeclared (types_of program.now.names) at variable (seen_ty value.now) (seen_environment env.old) (seen_slot declared.now)) (λ (u : Unit {0}). seen_environment env.new) result }
    ensures over { OnOk result (IsOver (types_of program.now.names) walk.new.question) }
    ensures flow { OnOk result (seen_flow walk.new ≡ seen_flow walk.old) }
{
    match declared {
        None => Ok(()),
        Some(declared) => {
            comes_into(
                alloc,
                program,
                walk,
                at,
                env,
                variable,
                value,
                declared.get(),
            )
        }
    }
}

// The variable has this type from now on, where it was declared with one that has all of its values.
fn new_declared(
    alloc: Global,
    program: &Program,
    walk: &mut Walk,
    at: u32,
    env: &mut Environment,
    variable: u32,
    ty: &Ty,
    declared: &Option<Shared>,
) -> Result<(), FlowFault>
    requires recursion { RecurThroughParts (types_of program.now.names) }
    requires over { IsOver (types_of program.now.names) walk.old.question }
    ensures value { Meets (spec.NewDeclared (types_of program.now.names) at variable (seen_ty ty.now) (seen_environment env.old) (seen_slot declared.now)) (λ (u : Unit {0}). seen_environment env.new) result }
    ensures over { OnOk result (IsOver (types_of program.now.names) walk.new.question) }
    ensures flow { OnOk result (seen_flow walk.new ≡ seen_flow walk.old) }
{
    match declared {
        None => Ok(()),
        Some(declared) => {
            fits(alloc, program, walk, at, ty, declared.get())?;
            give_normal(alloc, program, walk, at, env, variable, ty)
        }
    }
}

/// `int x` and `int x = 1`
pub fn declaration(
    alloc: Global,
    program: &Program,
    walk: &mut Walk,
    at: u32,
    ty: &Ty,
    variable: u32,
    value: &Option<Expr>,
    state: State,
) -> Result<State, FlowFault>
    requires recursion { RecurThroughParts (types_of program.now.names) }
    requires over { IsOver (types_of program.now.names) walk.old.question }
    ensures value { Meets (spec.DeclareTyped (seen_program program.now) at (seen_ty ty.now) variable (seen_state (seen_flow walk.old) state) (seen_option value.now)) (seen_state (seen_flow walk.new)) result }
    ensures over { OnOk result (IsOver (types_of program.now.names) walk.new.question) }
{
    let mut state = state;
    match value {
        None => {
            give_normal(alloc, program, walk, at, &mut state.env, variable, ty)?;
            declare(alloc, &mut state, variable, ty)?;
            Ok(state)
        }
        Some(value) => {
            let found = typed(alloc, program, &state.env, walk, &[], value)?;
            comes_into(
                alloc,
                program,
                walk,
                at,
                &mut state.env,
                variable,
                found.ty.get(),
                ty,
            )?;
            declare(alloc, &mut state, variable, ty)?;
            Ok(state)
        }
    }
}

/// `x = 1`
pub fn assignment(
    alloc: Global,
    program: &Program,
    walk: &mut Walk,
    at: u32,
    variable: u32,
    value: &Expr,
    state: State,
) -> Result<State, FlowFault>
    requires recursion { RecurThroughParts (types_of program.now.names) }
    requires over { IsOver (types_of program.now.names) walk.old.question }
    ensures value { Meets (spec.WholeTyped (seen_program program.now) at variable (seen_expr value.now) (seen_state (seen_flow walk.old) state)) (seen_state (seen_flow walk.new)) result }
    ensures over { OnOk result (IsOver (types_of program.now.names) walk.new.question) }
{
    let mut state = state;
    let found = typed(alloc, program, &state.env, walk, &[], value)?;
    let declared = declared_type(&state, variable)?;
    into_declared(
        alloc,
        program,
        walk,
        at,
        &mut state.env,
        variable,
        found.ty.get(),
        &declared,
    )?;
    Ok(state)
}

/// `x[i].f = 1`: the steps, then the value, then the new type of the variable.
pub fn update(
    alloc: Global,
    program: &Program,
    walk: &mut Walk,
    at: u32,
    variable: u32,
    path: &[Step],
    value: &Expr,
    state: State,
) -> Result<State, FlowFault>
    requires recursion { RecurThroughParts (types_of program.now.names) }
    requires over { IsOver (types_of program.now.names) walk.old.question }
    ensures value { Meets (spec.PartTyped (seen_program program.now) at variable (map seen_step path.now) (seen_expr value.now) (seen_state (seen_flow walk.old) state)) (seen_state (seen_flow walk.new)) result }
    ensures over { OnOk result (IsOver (types_of program.now.names) walk.new.question) }
{
    let mut state = state;
    let ty = state.env.type_of(alloc, at, &[], variable)?;
    let types = path_types(alloc, program, &state.env, walk, ty, path)?;
    let found = typed(alloc, program, &state.env, walk, &[], value)?;
    let new = updated(
        alloc,
        program,
        walk,
        at,
        path,
        types.as_slice(),
        found.ty.get(),
    )?;
    let declared = declared_type(&state, variable)?;
    new_declared(
        alloc,
        program,
        walk,
        at,
        &mut state.env,
        variable,
        &new,
        &declared,
    )?;
    Ok(state)
}
