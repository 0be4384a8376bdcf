//! Statements: what may be without a value, and the least place where such is used.
ghost use Rattle.std.specs.Prelude.{◌≡◌, IfOk};
ghost use Rattle.wy_core.specs.CoreSeen.{seen_block, seen_expr, seen_exprs, seen_stmt};
ghost use Rattle.wy_assign.specs.Faults as spec;
ghost use Rattle.wy_assign.specs.Flows as flows;

use crate::flow::{
    Flow, Walk, assign, broken, continued, declare, exit, from_here, head, left, otherwise,
    rejoined,
};
use crate::marks::Marks;
use crate::transfer::flow_block;
use crate::uses::{note_args, note_clauses, note_expr, note_option, note_path};
use std::alloc::{AllocError, Global};
use wy_core::{Expr, Stmt, StmtKind};

/// What may be without a value behind the statement, and the least place of a use of such, the one
/// found so far included. The body of a loop is gone through by itself first, so a statement is gone
/// through once more for each loop around it; an `if` and a loop cost besides what it takes to copy
/// and join the bits.
#[cycle(walk)]
fn walk_stmt(alloc: Global, stmt: &Stmt, walk: Walk) -> Result<Walk, AllocError>
    ensures value { IfOk result (λ w. w ≡ spec.walked (seen_stmt stmt.now) walk) }
{
    match &stmt.kind {
        StmtKind::Declare(_, variable, value) => {
            let Walk { flow, found } = walk;
            let found = note_option(alloc, &flow.here, value, found)?;
            let flow = declare(flow, *variable, value)?;
            Ok(Walk { flow, found })
        }
        StmtKind::Assign(variable, path, value) => {
            let Walk { flow, found } = walk;
            let path = path.as_slice();
            let found = note_path(alloc, &flow.here, stmt.at, *variable, path, found)?;
            let found = note_expr(alloc, &flow.here, value, found)?;
            let flow = assign(flow, *variable, path)?;
            Ok(Walk { flow, found })
        }
        StmtKind::Call(_, args) => {
            let Walk { flow, found } = walk;
            let found = note_args(alloc, &flow.here, args.as_slice(), found)?;
            Ok(Walk { flow, found })
        }
        StmtKind::Return(value) => {
            let Walk { flow, found } = walk;
            let found = note_option(alloc, &flow.here, value, found)?;
            let flow = left(alloc, flow);
            Ok(Walk { flow, found })
        }
        StmtKind::Assert(test) => {
            let Walk { flow, found } = walk;
            let found = note_expr(alloc, &flow.here, test, found)?;
            Ok(Walk { flow, found })
        }
        StmtKind::Break => {
            let Walk { flow, found } = walk;
            let flow = broken(alloc, flow)?;
            Ok(Walk { flow, found })
        }
        StmtKind::Continue => {
            let Walk { flow, found } = walk;
            let flow = continued(alloc, flow)?;
            Ok(Walk { flow, found })
        }
        StmtKind::Skip => Ok(walk),
        StmtKind::Fail => {
            let Walk { flow, found } = walk;
            let flow = left(alloc, flow);
            Ok(Walk { flow, found })
        }
        StmtKind::If(test, first, second) => {
            let (before, walk) = begin_if(alloc, walk, test)?;
            let first = walk_block(alloc, first.as_slice(), walk)?;
            let (here, start) = begin_else(before, first);
            let second = walk_block(alloc, second.as_slice(), start)?;
            end_if(alloc, here, second)
        }
        StmtKind::While(test, invariants, body) => {
            let body = body.as_slice();
            let (inside, behind) = begin_loop(alloc, walk, test, invariants.as_slice(), body)?;
            let inside = walk_block(alloc, body, inside)?;
            Ok(Walk {
                flow: behind,
                found: inside.found,
            })
        }
    }
}

/// What may be without a value behind the statements, and the least place of a use of such.
#[cycle(walk)]
pub fn walk_block(alloc: Global, block: &[Stmt], walk: Walk) -> Result<Walk, AllocError>
    ensures value { IfOk result (λ w. w ≡ spec.walked_all (seen_block block.now) walk) }
{
    let mut walk = walk;
    for stmt in block {
        walk = walk_stmt(alloc, stmt, walk)?;
    }
    Ok(walk)
}

/// The marks before an `if`, and the walk behind its test.
fn begin_if(alloc: Global, walk: Walk, test: &Expr) -> Result<(Marks, Walk), AllocError>
    ensures value { IfOk result (λ r. (r.0 ≡ walk.flow.here) × (r.1 ≡ spec.tested (seen_expr test.now) walk)) }
{
    let Walk { flow, found } = walk;
    let found = note_expr(alloc, &flow.here, test, found)?;
    let before = flow.here.copy(alloc)?;
    Ok((before, Walk { flow, found }))
}

/// The marks behind the first block of an `if`, and the walk at the second.
fn begin_else(before: Marks, first: Walk) -> (Marks, Walk)
    ensures ended { result.0 ≡ first.flow.here }
    ensures begun { result.1 ≡ spec.begun_else before first }
{
    let Walk { flow, found } = first;
    let (here, flow) = otherwise(before, flow);
    (here, Walk { flow, found })
}

/// Behind both blocks of an `if`.
fn end_if(alloc: Global, here: Marks, second: Walk) -> Result<Walk, AllocError>
    ensures value { IfOk result (λ w. w ≡ spec.ended_if here second) }
{
    let Walk { flow, found } = second;
    let flow = rejoined(alloc, here, flow)?;
    Ok(Walk { flow, found })
}

/// The walk where the body of a loop begins, behind its invariants and its test, and what may be
/// without a value behind the loop.
fn begin_loop(
    alloc: Global,
    walk: Walk,
    test: &Expr,
    invariants: &[Expr],
    body: &[Stmt],
) -> Result<(Walk, Flow), AllocError>
    ensures value { IfOk result (λ r. (r.0 ≡ spec.begun_loop (seen_expr test.now) (seen_exprs invariants.now) (seen_block body.now) walk) × (r.1 ≡ flows.looped walk.flow (flows.flow_all (seen_block body.now) flows.alone))) }
{
    let turn = from_here(alloc, Marks::all_set(alloc));
    let turn = flow_block(alloc, body, turn)?;
    let Walk { flow, found } = walk;
    let Flow {
        here,
        breaks,
        continues,
    } = flow;
    let (start, broken) = head(alloc, here, turn)?;
    let found = note_clauses(alloc, &start, invariants, found)?;
    let found = note_expr(alloc, &start, test, found)?;
    let again = start.copy(alloc)?;
    let inside = Walk {
        flow: from_here(alloc, again),
        found,
    };
    let here = exit(alloc, start, broken)?;
    let behind = Flow {
        here,
        breaks,
        continues,
    };
    Ok((inside, behind))
}
