//! The walk through statements.
ghost use Rattle.std.specs.Prelude.{◌≡◌, IfOk, map};
ghost use Rattle.wy_core.specs.CoreSeen.{seen_block, seen_expr, seen_exprs, seen_option, seen_step, seen_stmt};
ghost use Rattle.wy_live.specs.Walks as spec;

use crate::live::head_live;
use crate::sets::{Variables, joined};
use crate::uses::{mark, mark_all, mark_steps, skip, skip_clauses};
use crate::walk::{Ends, Walk, with_live};
use std::alloc::{AllocError, Global};
use wy_core::{Expr, Step, Stmt, StmtKind};

/// From behind the statement to before it, with the marks of its uses. It goes through each node
/// once, and once more for each loop around it.
#[cycle(walk)]
fn walk_stmt(alloc: Global, stmt: &Stmt, ends: &Ends, walk: Walk) -> Result<Walk, AllocError>
    ensures value { IfOk result (λ w. w ≡ spec.walked (seen_stmt stmt.now) ends.now walk) }
{
    match &stmt.kind {
        StmtKind::Declare(_, variable, value) => walk_declare(alloc, *variable, value, walk),
        StmtKind::Assign(variable, path, value) => {
            walk_assign(alloc, *variable, path.as_slice(), value, walk)
        }
        StmtKind::Call(_, args) => mark_all(alloc, args.as_slice(), walk),
        StmtKind::Return(value) => walk_return(alloc, value, walk),
        StmtKind::Assert(test) => walk_assert(test, walk),
        StmtKind::Break => {
            let live = ends.exit.copy(alloc)?;
            Ok(with_live(live, walk))
        }
        StmtKind::Continue => {
            let live = ends.again.copy(alloc)?;
            Ok(with_live(live, walk))
        }
        StmtKind::Skip => Ok(walk),
        StmtKind::Fail => Ok(with_live(Variables::none(alloc), walk)),
        StmtKind::If(test, first, second) => {
            let again = walk.live.copy(alloc)?;
            let second = walk_block(alloc, second.as_slice(), ends, walk)?;
            let (live, start) = begin_first(again, second);
            let first = walk_block(alloc, first.as_slice(), ends, start)?;
            end_if(alloc, test, first, &live)
        }
        StmtKind::While(test, invariants, body) => {
            let body = body.as_slice();
            let (around, start) = begin_loop(alloc, test, body, walk)?;
            let inside = walk_block(alloc, body, &around, start)?;
            end_loop(alloc, test, invariants.as_slice(), around, inside)
        }
    }
}

/// From behind the statements to before them.
#[cycle(walk)]
pub fn walk_block(
    alloc: Global,
    block: &[Stmt],
    ends: &Ends,
    walk: Walk,
) -> Result<Walk, AllocError>
    ensures value { IfOk result (λ w. w ≡ spec.walked_all (seen_block block.now) ends.now walk) }
{
    let mut walk = walk;
    let mut left = block.len();
    while left > 0 {
        left -= 1;
        walk = walk_stmt(alloc, &block[left], ends, walk)?;
    }
    Ok(walk)
}

/// What is live at the second block of an `if`, and the walk behind the first.
fn begin_first(behind: Variables, second: Walk) -> (Variables, Walk)
    ensures live { result.0 ≡ second.live }
    ensures begun { result.1 ≡ spec.with_live behind second }
{
    let Walk { live, marks } = second;
    let begun = Walk {
        live: behind,
        marks,
    };
    (live, begun)
}

/// Before the test of an `if`, whose first block begins so, and where this is live at the second.
fn end_if(alloc: Global, test: &Expr, first: Walk, second: &Variables) -> Result<Walk, AllocError>
    ensures value { IfOk result (λ w. w ≡ spec.if_ended (seen_expr test.now) first second.now) }
{
    let Walk { live, marks } = first;
    let live = joined(alloc, &live, second)?;
    mark(alloc, test, Walk { live, marks })
}

/// What is live behind a loop and at its head, and the walk behind its body.
fn begin_loop(
    alloc: Global,
    test: &Expr,
    body: &[Stmt],
    walk: Walk,
) -> Result<(Ends, Walk), AllocError>
    ensures value { IfOk result (λ r. (r.0 ≡ spec.around walk.live (spec.head_live (seen_expr test.now) (seen_block body.now) walk.live)) × (r.1 ≡ spec.with_live (spec.head_live (seen_expr test.now) (seen_block body.now) walk.live) walk)) }
{
    let Walk { live, marks } = walk;
    let head = head_live(alloc, test, body, &live)?;
    let start = Walk {
        live: head.copy(alloc)?,
        marks,
    };
    let around = Ends {
        exit: live,
        again: head,
    };
    Ok((around, start))
}

/// Before a loop, whose body begins so.
fn end_loop(
    alloc: Global,
    test: &Expr,
    invariants: &[Expr],
    around: Ends,
    inside: Walk,
) -> Result<Walk, AllocError>
    ensures value { IfOk result (λ w. w ≡ spec.loop_ended (seen_expr test.now) (seen_exprs invariants.now) around inside) }
{
    let Ends { exit, again } = around;
    let begun = enter(alloc, invariants, &exit, inside)?;
    let begun = mark(alloc, test, begun)?;
    Ok(with_live(again, begun))
}

/// Behind the test of a loop, whose body begins so.
fn enter(
    alloc: Global,
    invariants: &[Expr],
    behind: &Variables,
    inside: Walk,
) -> Result<Walk, AllocError>
    ensures value { IfOk result (λ w. w ≡ spec.entered (seen_exprs invariants.now) behind.now inside) }
{
    let Walk { live, marks } = inside;
    let live = joined(alloc, &live, behind)?;
    let marks = skip_clauses(invariants, marks)?;
    Ok(Walk { live, marks })
}

fn walk_declare(
    alloc: Global,
    variable: u32,
    value: &Option<Expr>,
    walk: Walk,
) -> Result<Walk, AllocError>
    ensures value { IfOk result (λ w. w ≡ spec.declare_walked variable (seen_option value.now) walk) }
{
    match value {
        None => Ok(walk),
        Some(expr) => {
            let Walk { mut live, marks } = walk;
            live.remove(variable)?;
            mark(alloc, expr, Walk { live, marks })
        }
    }
}

fn walk_assign(
    alloc: Global,
    variable: u32,
    path: &[Step],
    value: &Expr,
    walk: Walk,
) -> Result<Walk, AllocError>
    ensures value { IfOk result (λ w. w ≡ spec.assign_walked variable (map seen_step path.now) (seen_expr value.now) walk) }
{
    let Walk { mut live, marks } = walk;
    match path {
        [] => {
            live.remove(variable)?;
            mark(alloc, value, Walk { live, marks })
        }
        [_, ..] => {
            live.insert(variable)?;
            let walk = mark(alloc, value, Walk { live, marks })?;
            mark_steps(alloc, path, walk)
        }
    }
}

fn walk_return(alloc: Global, value: &Option<Expr>, walk: Walk) -> Result<Walk, AllocError>
    ensures value { IfOk result (λ w. w ≡ spec.return_walked (seen_option value.now) walk) }
{
    let walk = with_live(Variables::none(alloc), walk);
    match value {
        None => Ok(walk),
        Some(expr) => mark(alloc, expr, walk),
    }
}

fn walk_assert(test: &Expr, walk: Walk) -> Result<Walk, AllocError>
    ensures value { IfOk result (λ w. w ≡ spec.assert_walked (seen_expr test.now) walk) }
{
    let Walk { live, marks } = walk;
    let marks = skip(test, marks)?;
    Ok(Walk { live, marks })
}
