//! The code of statements.
ghost use Rattle.std.specs.Prelude.{◌≡◌, ◌≤◌, ◌++◌, ◌-◌, IfOk, length};
ghost use Rattle.wy_core.specs.CoreSeen.{seen_block, seen_stmt};
ghost use Rattle.wy_live.specs.Walks as lives;
ghost use Rattle.wy_code_spec.specs.compiled.Statements as spec;

use crate::loops::{Around, Choice, Loop, begin_first, begin_loop, end_choice, end_loop};
use crate::made::Made;
use crate::simple::{assign, call, declare, give, gives_null, jump};
use std::alloc::Global;
use wy_code::pieces::NoMemory;
use wy_code_spec::tables::Context;
use wy_core::{Stmt, StmtKind};

/// The code of a statement before the code behind it, and what is live before it. The registers from
/// `free` on are free.
#[cycle(stmt)]
fn stmt_code(
    alloc: Global,
    context: &Context,
    stmt: &Stmt,
    around: &Around,
    free: u32,
    behind: Made,
) -> Result<Made, NoMemory>
    requires exit { around.now.exit ≤ length behind.steps }
    requires again { around.now.again ≤ length behind.steps }
    ensures value { IfOk result (λ m. m.steps ≡ spec.stmt_code context.now (seen_stmt stmt.now) behind.live around.now.ends free (length behind.steps - around.now.exit) (length behind.steps - around.now.again) ++ behind.steps) }
    ensures live { IfOk result (λ m. m.live ≡ lives.live (seen_stmt stmt.now) behind.live around.now.ends) }
{
    match &stmt.kind {
        StmtKind::Declare(_, variable, value) => {
            declare(alloc, context, *variable, value, free, behind)
        }
        StmtKind::Assign(variable, path, value) => {
            let path = path.as_slice();
            assign(alloc, context, *variable, path, value, free, behind)
        }
        StmtKind::Call(routine, args) => {
            call(alloc, context, *routine, args.as_slice(), free, behind)
        }
        StmtKind::Return(value) => give(alloc, context, value, free, behind),
        StmtKind::Assert(_) => Ok(behind),
        StmtKind::Break => jump(around.ends.exit.copy(alloc)?, around.exit, behind),
        StmtKind::Continue => jump(around.ends.again.copy(alloc)?, around.again, behind),
        StmtKind::Skip => Ok(behind),
        StmtKind::Fail => gives_null(alloc, free, behind),
        StmtKind::If(test, first, second) => {
            let first = first.as_slice();
            let end = behind.steps.len();
            let again = behind.live.copy(alloc)?;
            let second = block_code(alloc, context, second.as_slice(), around, free, behind)?;
            let choice = begin_first(alloc, first, &around.ends, again, end, second)?;
            let Choice { both, mid, start } = choice;
            let made = block_code(alloc, context, first, around, free, start)?;
            end_choice(alloc, context, test, both, end, mid, free, made)
        }
        StmtKind::While(test, _, body) => {
            let body = body.as_slice();
            let begun = begin_loop(alloc, test, body, behind)?;
            let Loop {
                live,
                around,
                done,
                start,
            } = begun;
            let made = block_code(alloc, context, body, &around, free, start)?;
            end_loop(alloc, context, test, live, around, done, free, made)
        }
    }
}

/// The same of statements, one behind the other.
#[cycle(stmt)]
pub fn block_code(
    alloc: Global,
    context: &Context,
    block: &[Stmt],
    around: &Around,
    free: u32,
    behind: Made,
) -> Result<Made, NoMemory>
    requires exit { around.now.exit ≤ length behind.steps }
    requires again { around.now.again ≤ length behind.steps }
    ensures value { IfOk result (λ m. m.steps ≡ spec.stmts_code context.now (seen_block block.now) behind.live around.now.ends free (length behind.steps - around.now.exit) (length behind.steps - around.now.again) ++ behind.steps) }
    ensures live { IfOk result (λ m. m.live ≡ lives.live_all (seen_block block.now) behind.live around.now.ends) }
{
    let mut made = behind;
    let mut left = block.len();
    while left > 0 {
        left -= 1;
        made = stmt_code(alloc, context, &block[left], around, free, made)?;
    }
    Ok(made)
}
