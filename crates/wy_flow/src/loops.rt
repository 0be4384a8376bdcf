//! The heads and the ends of loops.
ghost use Rattle.std.specs.Prelude.{◌≡◌, IfOk, OnOk};
ghost use Rattle.wy_core.specs.CoreSeen.{seen_block, seen_expr, seen_exprs};
ghost use Rattle.wy_flow_spec.specs.environment.Seen.{seen_environment, seen_slot, seen_slots};
ghost use Rattle.wy_flow.specs.States.{seen_branches, seen_environments, seen_state};
ghost use Rattle.wy_flow_exprs.specs.Seen.{seen_flow, seen_program};
ghost use Rattle.wy_types.specs.Names.{types_of};
ghost use Rattle.wy_types.specs.Questions.{IsOver};
ghost use Rattle.wy_types.specs.Recursion.{RecurThroughParts};
ghost use Rattle.wy_flow_spec.specs.typing.Outcomes.{Meets};
ghost use Rattle.wy_flow_spec.specs.typing.Loops as spec;

use crate::assigned::assigned_variables;
use crate::branches::{clauses, sides, tested};
use crate::state::{State, declared_type};
use std::alloc::Global;
use wy_core::{Expr, Stmt};
use wy_flow_exprs::checks::{joined, norm_at};
use wy_flow_exprs::{Program, Walk};
use wy_flow_spec::environment::{Environment, Shared};
use wy_flow_spec::typing::FlowFault;
use wy_items::Items;

// The variable has its declared type.
fn renewed(
    alloc: Global,
    program: &Program,
    walk: &mut Walk,
    at: u32,
    env: Environment,
    variable: u32,
    declared: Option<Shared>,
) -> Result<Environment, FlowFault>
    requires recursion { RecurThroughParts (types_of program.now.names) }
    requires over { IsOver (types_of program.now.names) walk.old.question }
    ensures value { Meets (spec.Renewed (types_of program.now.names) at (seen_environment env) variable (seen_slot declared)) seen_environment result }
    ensures over { OnOk result (IsOver (types_of program.now.names) walk.new.question) }
    ensures flow { OnOk result (seen_flow walk.new ≡ seen_flow walk.old) }
{
    match declared {
        None => Ok(env),
        Some(ty) => {
            let made = norm_at(alloc, &program.names, &mut walk.question, at, ty.get())?;
            let mut env = env;
            env.give(variable, made)?;
            Ok(env)
        }
    }
}

// The head of a loop at `at` that assigns these variables: each has its declared type, where a path
// gets there and it was declared before.
fn head(
    alloc: Global,
    program: &Program,
    walk: &mut Walk,
    at: u32,
    state: &State,
    variables: &[u32],
) -> Result<Environment, FlowFault>
    requires recursion { RecurThroughParts (types_of program.now.names) }
    requires over { IsOver (types_of program.now.names) walk.old.question }
    ensures value { Meets (spec.Head (types_of program.now.names) at (seen_state (seen_flow walk.old) state.now) variables.now) seen_environment result }
    ensures over { OnOk result (IsOver (types_of program.now.names) walk.new.question) }
    ensures flow { OnOk result (seen_flow walk.new ≡ seen_flow walk.old) }
{
    let env = state.env.copy(alloc)?;
    if env.reached {
        return renewed_all(alloc, program, walk, at, state, env, variables);
    }
    Ok(env)
}

// Each of the variables has its declared type.
fn renewed_all(
    alloc: Global,
    program: &Program,
    walk: &mut Walk,
    at: u32,
    state: &State,
    env: Environment,
    variables: &[u32],
) -> Result<Environment, FlowFault>
    requires recursion { RecurThroughParts (types_of program.now.names) }
    requires over { IsOver (types_of program.now.names) walk.old.question }
    ensures value { Meets (spec.RenewedAll (types_of program.now.names) at (seen_slots state.now.declared) variables.now (seen_environment env)) seen_environment result }
    ensures over { OnOk result (IsOver (types_of program.now.names) walk.new.question) }
    ensures flow { OnOk result (seen_flow walk.new ≡ seen_flow walk.old) }
{
    let mut here = env;
    for variable in variables {
        let declared = declared_type(state, *variable)?;
        let next = renewed(alloc, program, walk, at, here, *variable, declared)?;
        here = next;
    }
    Ok(here)
}

// Behind a loop at `at`: where its test is false, or at one of its `break`s.
fn exit(
    alloc: Global,
    program: &Program,
    walk: &mut Walk,
    at: u32,
    outside: Environment,
    breaks: &[Environment],
) -> Result<Environment, FlowFault>
    requires recursion { RecurThroughParts (types_of program.now.names) }
    requires over { IsOver (types_of program.now.names) walk.old.question }
    ensures value { Meets (spec.Exit (types_of program.now.names) at (seen_environments breaks.now) (seen_environment outside)) seen_environment result }
    ensures over { OnOk result (IsOver (types_of program.now.names) walk.new.question) }
    ensures flow { OnOk result (seen_flow walk.new ≡ seen_flow walk.old) }
{
    let mut here = outside;
    for other in breaks {
        let copy = other.copy(alloc)?;
        let next = joined(alloc, &program.names, &mut walk.question, at, here, copy)?;
        here = next;
    }
    Ok(here)
}

/// The body's begin, the types where the test is false, and the `break`s of the loop around.
pub fn begin_loop(
    alloc: Global,
    program: &Program,
    walk: &mut Walk,
    at: u32,
    test: &Expr,
    invariants: &[Expr],
    body: &[Stmt],
    state: State,
) -> Result<(State, Environment, Items<Environment>), FlowFault>
    requires recursion { RecurThroughParts (types_of program.now.names) }
    requires over { IsOver (types_of program.now.names) walk.old.question }
    ensures value { Meets (spec.BeginLoop (seen_program program.now) at (seen_expr test.now) (seen_exprs invariants.now) (seen_block body.now) (seen_state (seen_flow walk.old) state)) (λ r. seen_branches (seen_flow walk.new) (r.0, r.1)) result }
    ensures around { IfOk result (λ r. seen_environments r.2 ≡ seen_environments state.breaks) }
    ensures over { OnOk result (IsOver (types_of program.now.names) walk.new.question) }
{
    let variables = assigned_variables(alloc, body)?;
    let start = head(alloc, program, walk, at, &state, variables.as_slice())?;
    let found = tested(alloc, program, walk, at, &start, test)?;
    clauses(alloc, program, walk, &start, invariants)?;
    let (env, outside) = sides(alloc, start, &found)?;
    let State {
        declared,
        breaks,
        ..
    } = state;
    let inside = State {
        env,
        declared,
        breaks: Items::new(alloc),
    };
    Ok((inside, outside, breaks))
}

/// Behind the loop, where its body ended so.
pub fn end_loop(
    alloc: Global,
    program: &Program,
    walk: &mut Walk,
    at: u32,
    outside: Environment,
    around: Items<Environment>,
    turn: State,
) -> Result<State, FlowFault>
    requires recursion { RecurThroughParts (types_of program.now.names) }
    requires over { IsOver (types_of program.now.names) walk.old.question }
    ensures value { Meets (spec.EndLoop (types_of program.now.names) at (seen_environment outside) (seen_environments around) (seen_state (seen_flow walk.old) turn)) (seen_state (seen_flow walk.new)) result }
    ensures over { OnOk result (IsOver (types_of program.now.names) walk.new.question) }
{
    let State {
        declared,
        breaks,
        ..
    } = turn;
    let env = exit(alloc, program, walk, at, outside, breaks.as_slice())?;
    Ok(State {
        env,
        declared,
        breaks: around,
    })
}
