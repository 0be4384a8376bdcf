//! Statements.
ghost use Rattle.std.specs.Prelude.{◌≡◌, Some, map, OnOk};
ghost use Rattle.wy_core.specs.CoreSeen.{seen_block, seen_expr, seen_exprs, seen_option, seen_step, seen_stmt, seen_ty};
ghost use Rattle.wy_flow_spec.specs.environment.Seen.{seen_environment};
ghost use Rattle.wy_flow.specs.States.{seen_state};
ghost use Rattle.wy_flow_exprs.specs.Seen.{seen_flow, seen_program, seen_result};
ghost use Rattle.wy_types.specs.Names.{types_of};
ghost use Rattle.wy_types.specs.Questions.{IsOver};
ghost use Rattle.wy_types.specs.Recursion.{RecurThroughParts};
ghost use Rattle.wy_flow_spec.specs.typing.Outcomes.{Meets};
ghost use Rattle.wy_core.specs.CoreTree.{exprs_of};
ghost use Rattle.wy_flow_spec.specs.typing.Statements as spec;

use crate::branches::{asserted, begin_else, begin_if, end_if};
use crate::loops::{begin_loop, end_loop};
use crate::state::{State, broken, left};
use crate::values::{assignment, declaration, fits, update};
use std::alloc::Global;
use wy_core::{Expr, Step, Stmt, StmtKind, Ty};
use wy_flow_exprs::{Program, Walk, check_args, typed, typed_all};
use wy_flow_spec::typing::FlowFault;

// Behind a statement of a body whose result has this type.
#[cycle(statements)]
fn stmt_typed(
    alloc: Global,
    program: &Program,
    walk: &mut Walk,
    output: &Option<Ty>,
    stmt: &Stmt,
    state: State,
) -> Result<State, FlowFault>
    requires recursion { RecurThroughParts (types_of program.now.names) }
    requires over { IsOver (types_of program.now.names) walk.old.question }
    ensures value { Meets (spec.TypedStmt (seen_program program.now) (seen_result output.now) (seen_stmt stmt.now) (seen_state (seen_flow walk.old) state)) (seen_state (seen_flow walk.new)) result }
    ensures over { OnOk result (IsOver (types_of program.now.names) walk.new.question) }
{
    let at = stmt.at;
    match &stmt.kind {
        StmtKind::Declare(ty, variable, value) => {
            declaration(alloc, program, walk, at, ty, *variable, value, state)
        }
        StmtKind::Assign(variable, path, value) => {
            assigned(
                alloc,
                program,
                walk,
                at,
                *variable,
                path.as_slice(),
                value,
                state,
            )
        }
        StmtKind::Call(routine, args) => {
            called(alloc, program, walk, at, *routine, args.as_slice(), state)
        }
        StmtKind::Return(value) => returned(alloc, program, walk, at, output, value, state),
        StmtKind::Assert(test) => asserted(alloc, program, walk, at, test, state),
        StmtKind::Break => Ok(broken(alloc, state)?),
        StmtKind::Continue => Ok(left(alloc, state)),
        StmtKind::Skip => Ok(state),
        StmtKind::Fail => Ok(left(alloc, state)),
        StmtKind::If(test, first, second) => {
            let first = first.as_slice();
            let second = second.as_slice();
            let (begun, otherwise) = begin_if(alloc, program, walk, at, test, state)?;
            let taken = block_typed(alloc, program, walk, output, first, begun)?;
            let (before, begun) = begin_else(taken, otherwise);
            let other = block_typed(alloc, program, walk, output, second, begun)?;
            end_if(alloc, program, walk, at, before, other)
        }
        StmtKind::While(test, invariants, body) => {
            let invariants = invariants.as_slice();
            let body = body.as_slice();
            let (inside, outside, around) = begin_loop(
                alloc, program, walk, at, test, invariants, body, state,
            )?;
            let turn = block_typed(alloc, program, walk, output, body, inside)?;
            end_loop(alloc, program, walk, at, outside, around, turn)
        }
    }
}

/// Behind the statements of a block.
#[cycle(statements)]
pub fn block_typed(
    alloc: Global,
    program: &Program,
    walk: &mut Walk,
    output: &Option<Ty>,
    block: &[Stmt],
    state: State,
) -> Result<State, FlowFault>
    requires recursion { RecurThroughParts (types_of program.now.names) }
    requires over { IsOver (types_of program.now.names) walk.old.question }
    ensures value { Meets (spec.TypedBlock (seen_program program.now) (seen_result output.now) (seen_block block.now) (seen_state (seen_flow walk.old) state)) (seen_state (seen_flow walk.new)) result }
    ensures over { OnOk result (IsOver (types_of program.now.names) walk.new.question) }
{
    let mut here = state;
    for stmt in block {
        let next = stmt_typed(alloc, program, walk, output, stmt, here)?;
        here = next;
    }
    Ok(here)
}

// `x = 1` and `x[i].f = 1`
fn assigned(
    alloc: Global,
    program: &Program,
    walk: &mut Walk,
    at: u32,
    variable: u32,
    path: &[Step],
    value: &Expr,
    state: State,
) -> Result<State, FlowFault>
    requires recursion { RecurThroughParts (types_of program.now.names) }
    requires over { IsOver (types_of program.now.names) walk.old.question }
    ensures value { Meets (spec.AssignTyped (seen_program program.now) at variable (seen_expr value.now) (seen_state (seen_flow walk.old) state) (map seen_step path.now)) (seen_state (seen_flow walk.new)) result }
    ensures over { OnOk result (IsOver (types_of program.now.names) walk.new.question) }
{
    match path {
        [] => assignment(alloc, program, walk, at, variable, value, state),
        [_, ..] => update(alloc, program, walk, at, variable, path, value, state),
    }
}

// `m(x, 1)`
fn called(
    alloc: Global,
    program: &Program,
    walk: &mut Walk,
    at: u32,
    routine: u32,
    args: &[Expr],
    state: State,
) -> Result<State, FlowFault>
    requires recursion { RecurThroughParts (types_of program.now.names) }
    requires over { IsOver (types_of program.now.names) walk.old.question }
    ensures value { Meets (spec.CallTyped (seen_program program.now) at routine (exprs_of (seen_exprs args.now)) (seen_state (seen_flow walk.old) state)) (seen_state (seen_flow walk.new)) result }
    ensures over { OnOk result (IsOver (types_of program.now.names) walk.new.question) }
{
    let types = typed_all(alloc, program, &state.env, walk, &[], args)?;
    check_args(alloc, program, walk, at, routine, types.as_slice())?;
    Ok(state)
}

// `return` and `return x`
fn returned(
    alloc: Global,
    program: &Program,
    walk: &mut Walk,
    at: u32,
    output: &Option<Ty>,
    value: &Option<Expr>,
    state: State,
) -> Result<State, FlowFault>
    requires recursion { RecurThroughParts (types_of program.now.names) }
    requires over { IsOver (types_of program.now.names) walk.old.question }
    ensures value { Meets (spec.ReturnTyped (seen_program program.now) at (seen_result output.now) (seen_state (seen_flow walk.old) state) (seen_option value.now)) (seen_state (seen_flow walk.new)) result }
    ensures over { OnOk result (IsOver (types_of program.now.names) walk.new.question) }
{
    match value {
        None => Ok(left(alloc, state)),
        Some(value) => returned_value(alloc, program, walk, at, output, value, state),
    }
}

fn returned_value(
    alloc: Global,
    program: &Program,
    walk: &mut Walk,
    at: u32,
    output: &Option<Ty>,
    value: &Expr,
    state: State,
) -> Result<State, FlowFault>
    requires recursion { RecurThroughParts (types_of program.now.names) }
    requires over { IsOver (types_of program.now.names) walk.old.question }
    ensures value { Meets (spec.ReturnTyped (seen_program program.now) at (seen_result output.now) (seen_state (seen_flow walk.old) state) (Some (seen_expr value.now))) (seen_state (seen_flow walk.new)) result }
    ensures over { OnOk result (IsOver (types_of program.now.names) walk.new.question) }
{
    let found = typed(alloc, program, &state.env, walk, &[], value)?;
    fits_result(alloc, program, walk, at, found.ty.get(), output)?;
    Ok(left(alloc, state))
}

// The type is within that of the result, where there is one, or `NotSubtype`.
fn fits_result(
    alloc: Global,
    program: &Program,
    walk: &mut Walk,
    at: u32,
    ty: &Ty,
    output: &Option<Ty>,
) -> Result<(), FlowFault>
    requires recursion { RecurThroughParts (types_of program.now.names) }
    requires over { IsOver (types_of program.now.names) walk.old.question }
    ensures value { Meets (spec.FitsResult (types_of program.now.names) at (seen_ty ty.now) (seen_result output.now)) (λ (u : Unit {0}). u) result }
    ensures over { OnOk result (IsOver (types_of program.now.names) walk.new.question) }
    ensures flow { OnOk result (seen_flow walk.new ≡ seen_flow walk.old) }
{
    match output {
        None => Ok(()),
        Some(output) => fits(alloc, program, walk, at, ty, output),
    }
}
