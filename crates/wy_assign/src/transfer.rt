//! What may be without a value behind a statement.
ghost use Rattle.std.specs.Prelude.{◌≡◌, IfOk};
ghost use Rattle.wy_core.specs.CoreSeen.{seen_block, seen_stmt};
ghost use Rattle.wy_assign.specs.Flows as spec;

use crate::flow::{
    Flow, assign, broken, continued, declare, exit, from_here, head, left, otherwise, rejoined,
};
use crate::marks::Marks;
use std::alloc::{AllocError, Global};
use wy_core::{Stmt, StmtKind};

/// What may be without a value behind the statement. It goes through each statement in it once, and
/// looks at no expression.
#[cycle(flow)]
fn flow_stmt(alloc: Global, stmt: &Stmt, flow: Flow) -> Result<Flow, AllocError>
    ensures value { IfOk result (λ f. f ≡ spec.flow (seen_stmt stmt.now) flow) }
{
    match &stmt.kind {
        StmtKind::Declare(_, variable, value) => declare(flow, *variable, value),
        StmtKind::Assign(variable, path, _) => assign(flow, *variable, path.as_slice()),
        StmtKind::Call(_, _) => Ok(flow),
        StmtKind::Return(_) => Ok(left(alloc, flow)),
        StmtKind::Assert(_) => Ok(flow),
        StmtKind::Break => broken(alloc, flow),
        StmtKind::Continue => continued(alloc, flow),
        StmtKind::Skip => Ok(flow),
        StmtKind::Fail => Ok(left(alloc, flow)),
        StmtKind::If(_, first, second) => {
            let before = flow.here.copy(alloc)?;
            let first = flow_block(alloc, first.as_slice(), flow)?;
            let (here, start) = otherwise(before, first);
            let second = flow_block(alloc, second.as_slice(), start)?;
            rejoined(alloc, here, second)
        }
        StmtKind::While(_, _, body) => {
            let turn = from_here(alloc, Marks::all_set(alloc));
            let turn = flow_block(alloc, body.as_slice(), turn)?;
            let Flow {
                here,
                breaks,
                continues,
            } = flow;
            let (start, broken) = head(alloc, here, turn)?;
            let here = exit(alloc, start, broken)?;
            Ok(Flow {
                here,
                breaks,
                continues,
            })
        }
    }
}

/// What may be without a value behind the statements.
#[cycle(flow)]
pub fn flow_block(alloc: Global, block: &[Stmt], flow: Flow) -> Result<Flow, AllocError>
    ensures value { IfOk result (λ f. f ≡ spec.flow_all (seen_block block.now) flow) }
{
    let mut flow = flow;
    for stmt in block {
        flow = flow_stmt(alloc, stmt, flow)?;
    }
    Ok(flow)
}
