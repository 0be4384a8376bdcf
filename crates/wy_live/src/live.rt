//! What is live before a statement.
ghost use Rattle.std.specs.Prelude.{◌≡◌, IfOk, map};
ghost use Rattle.wy_core.specs.CoreSeen.{seen_block, seen_expr, seen_option, seen_step, seen_stmt};
ghost use Rattle.wy_live.specs.Walks as spec;

use crate::sets::{Variables, joined};
use crate::uses::{before, before_all, before_steps};
use crate::walk::Ends;
use std::alloc::{AllocError, Global};
use wy_core::{Expr, Step, Stmt, StmtKind};

/// What is live before the statement, where this is live behind it. It goes through each node once;
/// each `if` and each loop joins the bits of two sets.
#[cycle(live)]
fn live_stmt(
    alloc: Global,
    stmt: &Stmt,
    behind: Variables,
    ends: &Ends,
) -> Result<Variables, AllocError>
    ensures value { IfOk result (λ s. s ≡ spec.live (seen_stmt stmt.now) behind ends.now) }
{
    match &stmt.kind {
        StmtKind::Declare(_, variable, value) => live_declare(*variable, value, behind),
        StmtKind::Assign(variable, path, value) => {
            live_assign(*variable, path.as_slice(), value, behind)
        }
        StmtKind::Call(_, args) => before_all(args.as_slice(), behind),
        StmtKind::Return(value) => live_return(alloc, value),
        StmtKind::Assert(_) => Ok(behind),
        StmtKind::Break => ends.exit.copy(alloc),
        StmtKind::Continue => ends.again.copy(alloc),
        StmtKind::Skip => Ok(behind),
        StmtKind::Fail => Ok(Variables::none(alloc)),
        StmtKind::If(test, first, second) => {
            let again = behind.copy(alloc)?;
            let first = live_block(alloc, first.as_slice(), again, ends)?;
            let second = live_block(alloc, second.as_slice(), behind, ends)?;
            fork(alloc, test, &first, &second)
        }
        StmtKind::While(test, _, body) => {
            let alone = alone(alloc, &behind)?;
            let none = Variables::none(alloc);
            let inside = live_block(alloc, body.as_slice(), none, &alone)?;
            fork(alloc, test, &inside, &behind)
        }
    }
}

/// What is live before the statements.
#[cycle(live)]
pub fn live_block(
    alloc: Global,
    block: &[Stmt],
    behind: Variables,
    ends: &Ends,
) -> Result<Variables, AllocError>
    ensures value { IfOk result (λ s. s ≡ spec.live_all (seen_block block.now) behind ends.now) }
{
    let mut live = behind;
    let mut left = block.len();
    while left > 0 {
        left -= 1;
        live = live_stmt(alloc, &block[left], live, ends)?;
    }
    Ok(live)
}

/// What is live at the head of a loop: a path through it uses a variable before it assigns it exactly
/// where one does that goes through the body at most once.
pub fn head_live(
    alloc: Global,
    test: &Expr,
    body: &[Stmt],
    behind: &Variables,
) -> Result<Variables, AllocError>
    ensures value { IfOk result (λ s. s ≡ spec.head_live (seen_expr test.now) (seen_block body.now) behind.now) }
{
    let alone = alone(alloc, behind)?;
    let inside = live_block(alloc, body, Variables::none(alloc), &alone)?;
    fork(alloc, test, &inside, behind)
}

/// In a loop behind which this is live, where nothing is known of its head.
fn alone(alloc: Global, behind: &Variables) -> Result<Ends, AllocError>
    ensures value { IfOk result (λ e. e ≡ spec.alone behind.now) }
{
    Ok(Ends {
        exit: behind.copy(alloc)?,
        again: Variables::none(alloc),
    })
}

/// What is live before a test, behind which one of two is live.
fn fork(
    alloc: Global,
    test: &Expr,
    first: &Variables,
    second: &Variables,
) -> Result<Variables, AllocError>
    ensures value { IfOk result (λ s. s ≡ spec.fork_live (seen_expr test.now) first.now second.now) }
{
    let both = joined(alloc, first, second)?;
    before(test, both)
}

fn live_declare(
    variable: u32,
    value: &Option<Expr>,
    behind: Variables,
) -> Result<Variables, AllocError>
    ensures value { IfOk result (λ s. s ≡ spec.declare_live variable (seen_option value.now) behind) }
{
    match value {
        None => Ok(behind),
        Some(expr) => {
            let mut live = behind;
            live.remove(variable)?;
            before(expr, live)
        }
    }
}

fn live_assign(
    variable: u32,
    path: &[Step],
    value: &Expr,
    behind: Variables,
) -> Result<Variables, AllocError>
    ensures value { IfOk result (λ s. s ≡ spec.assign_live variable (map seen_step path.now) (seen_expr value.now) behind) }
{
    let mut live = behind;
    match path {
        [] => {
            live.remove(variable)?;
            before(value, live)
        }
        [_, ..] => {
            live.insert(variable)?;
            let live = before(value, live)?;
            before_steps(path, live)
        }
    }
}

fn live_return(alloc: Global, value: &Option<Expr>) -> Result<Variables, AllocError>
    ensures value { IfOk result (λ s. s ≡ spec.return_live (seen_option value.now)) }
{
    match value {
        None => Ok(Variables::none(alloc)),
        Some(expr) => before(expr, Variables::none(alloc)),
    }
}
