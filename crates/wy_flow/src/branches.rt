//! Tests of statements, and the clauses of declarations and loops.
ghost use Rattle.std.specs.Prelude.{◌≡◌, [], IfOk, OnOk};
ghost use Rattle.wy_core.specs.CoreSeen.{seen_expr, seen_exprs};
ghost use Rattle.wy_flow_spec.specs.environment.Seen.{seen_changes, seen_environment};
ghost use Rattle.wy_flow_spec.specs.environment.Variables.{changed};
ghost use Rattle.wy_flow.specs.States.{seen_branches, seen_state};
ghost use Rattle.wy_flow_exprs.specs.Seen.{seen_flow, seen_found, seen_program};
ghost use Rattle.wy_types.specs.Names.{types_of};
ghost use Rattle.wy_types.specs.Questions.{IsOver};
ghost use Rattle.wy_types.specs.Recursion.{RecurThroughParts};
ghost use Rattle.wy_flow_spec.specs.typing.Outcomes.{Meets};
ghost use Rattle.wy_flow_spec.specs.typing.Loops as loops;
ghost use Rattle.wy_flow_spec.specs.typing.States as states;
ghost use Rattle.wy_flow_spec.specs.typing.Statements as spec;

use crate::state::State;
use std::alloc::{AllocError, Global};
use wy_core::Expr;
use wy_flow_exprs::checks::{is_bool, joined};
use wy_flow_exprs::{Found, Program, Walk, typed};
use wy_flow_spec::environment::Environment;
use wy_flow_spec::typing::FlowFault;

/// The test of a statement at `at`.
pub fn tested(
    alloc: Global,
    program: &Program,
    walk: &mut Walk,
    at: u32,
    env: &Environment,
    test: &Expr,
) -> Result<Found, FlowFault>
    requires recursion { RecurThroughParts (types_of program.now.names) }
    requires over { IsOver (types_of program.now.names) walk.old.question }
    ensures value { Meets (states.Tested (seen_program program.now) at (seen_environment env.now) (seen_flow walk.old) (seen_expr test.now)) (seen_found (seen_flow walk.new)) result }
    ensures over { OnOk result (IsOver (types_of program.now.names) walk.new.question) }
{
    let found = typed(alloc, program, env, walk, &[], test)?;
    is_bool(
        alloc,
        &program.names,
        &mut walk.question,
        at,
        found.ty.get(),
    )?;
    Ok(found)
}

/// `assert e`: behind it the test is true.
pub fn asserted(
    alloc: Global,
    program: &Program,
    walk: &mut Walk,
    at: u32,
    test: &Expr,
    state: State,
) -> Result<State, FlowFault>
    requires recursion { RecurThroughParts (types_of program.now.names) }
    requires over { IsOver (types_of program.now.names) walk.old.question }
    ensures value { Meets (spec.AssertTyped (seen_program program.now) at (seen_expr test.now) (seen_state (seen_flow walk.old) state)) (seen_state (seen_flow walk.new)) result }
    ensures over { OnOk result (IsOver (types_of program.now.names) walk.new.question) }
{
    let mut state = state;
    let found = tested(alloc, program, walk, at, &state.env, test)?;
    state.env.change(found.yes.as_slice())?;
    Ok(state)
}

/// The first block's begin, and the types where the second begins.
pub fn begin_if(
    alloc: Global,
    program: &Program,
    walk: &mut Walk,
    at: u32,
    test: &Expr,
    state: State,
) -> Result<(State, Environment), FlowFault>
    requires recursion { RecurThroughParts (types_of program.now.names) }
    requires over { IsOver (types_of program.now.names) walk.old.question }
    ensures value { Meets (spec.BeginIf (seen_program program.now) at (seen_expr test.now) (seen_state (seen_flow walk.old) state)) (seen_branches (seen_flow walk.new)) result }
    ensures over { OnOk result (IsOver (types_of program.now.names) walk.new.question) }
{
    let found = tested(alloc, program, walk, at, &state.env, test)?;
    let State {
        env,
        declared,
        breaks,
    } = state;
    let (env, otherwise) = sides(alloc, env, &found)?;
    let begun = State {
        env,
        declared,
        breaks,
    };
    Ok((begun, otherwise))
}

/// The types of variables where a test is true, and where it is false.
pub fn sides(
    alloc: Global,
    env: Environment,
    found: &Found,
) -> Result<(Environment, Environment), AllocError>
    ensures taken { IfOk result (λ r. seen_environment r.0 ≡ changed (seen_environment env) (seen_changes found.now.yes)) }
    ensures other { IfOk result (λ r. seen_environment r.1 ≡ changed (seen_environment env) (seen_changes found.now.no)) }
{
    let mut taken = env;
    let mut other = taken.copy(alloc)?;
    taken.change(found.yes.as_slice())?;
    other.change(found.no.as_slice())?;
    Ok((taken, other))
}

/// The types behind the first block, and the second one's begin.
pub fn begin_else(first: State, otherwise: Environment) -> (Environment, State)
    ensures ended { seen_environment result.0 ≡ seen_environment first.env }
    ensures begun { seen_state [] result.1 ≡ states.with_env (seen_environment otherwise) (seen_state [] first) }
{
    let State {
        env,
        declared,
        breaks,
    } = first;
    let begun = State {
        env: otherwise,
        declared,
        breaks,
    };
    (env, begun)
}

/// Behind both blocks.
pub fn end_if(
    alloc: Global,
    program: &Program,
    walk: &mut Walk,
    at: u32,
    first: Environment,
    second: State,
) -> Result<State, FlowFault>
    requires recursion { RecurThroughParts (types_of program.now.names) }
    requires over { IsOver (types_of program.now.names) walk.old.question }
    ensures value { Meets (spec.EndIf (types_of program.now.names) at (seen_environment first) (seen_state (seen_flow walk.old) second)) (seen_state (seen_flow walk.new)) result }
    ensures over { OnOk result (IsOver (types_of program.now.names) walk.new.question) }
{
    let State {
        env,
        declared,
        breaks,
    } = second;
    let env = joined(alloc, &program.names, &mut walk.question, at, first, env)?;
    Ok(State {
        env,
        declared,
        breaks,
    })
}

/// Each clause is a truth value, or `NotBool` stands at it. No clause changes a variable.
pub fn clauses(
    alloc: Global,
    program: &Program,
    walk: &mut Walk,
    env: &Environment,
    list: &[Expr],
) -> Result<(), FlowFault>
    requires recursion { RecurThroughParts (types_of program.now.names) }
    requires over { IsOver (types_of program.now.names) walk.old.question }
    ensures value { Meets (loops.ClausesTyped (seen_program program.now) (seen_environment env.now) (seen_exprs list.now) (seen_flow walk.old)) (λ (u : Unit {0}). seen_flow walk.new) result }
    ensures over { OnOk result (IsOver (types_of program.now.names) walk.new.question) }
{
    for clause in list {
        let _found = tested(alloc, program, walk, clause.at, env, clause)?;
    }
    Ok(())
}
