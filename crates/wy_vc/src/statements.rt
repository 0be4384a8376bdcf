//! Statements and blocks.
ghost use Rattle.std.specs.Prelude.{◌≡◌, ◌<◌, ◌≤◌, ◌+◌, drop, length as count_of, IfOk, OnOk};
ghost use Rattle.wy_vc_spec.specs.Numbered as numbers;
ghost use Rattle.wy_vc_spec.specs.Sizes as sizes;
ghost use Rattle.wy_vc_spec.specs.Statements as spec;
ghost use Rattle.wy_core.specs.CoreSeen.{seen_block, seen_stmt};
ghost use Rattle.wy_vc_body.specs.Frames.{IsFrame, body_at};
ghost use Rattle.wy_vc_body.specs.Paths.{ArePaths, spot_of};
ghost use Rattle.wy_vc.specs.Flows.{Flows};
ghost use Rattle.wy_vc.specs.Rounds.{around};
ghost use Rattle.wy_vc_body.specs.wy_vc_exprs.Slots.{AreSlots};
ghost use Rattle.wy_vc_body.specs.wy_vc_exprs.State.{IsSound};

use crate::branches::{begin_else, begin_if, end_if};
use crate::heads::{begin_loop, end_loop};
use crate::rounds::{Round, break_out, turn_again};
use crate::simple::{assign_part, call_method, declare, hold, leave_body, never};
use std::alloc::Global;
use wy_core::{Stmt, StmtKind};
use wy_term::NoMemory;
use wy_vc_body::{Frame, Here, Path, Walk};
use wy_vc_tables::sizes::exprs_in_block;

// The statements behind this one, which no path gets to, owe nothing, and their expressions have numbers.
fn pass_over(walk: &mut Walk, block: &[Stmt], index: usize) -> Result<(), NoMemory>
    requires within { index < count_of block.now }
    ensures terms { OnOk result (walk.new.maker.terms ≡ walk.old.maker.terms) }
    ensures count { OnOk result (walk.new.maker.count ≡ walk.old.maker.count) }
    ensures node { OnOk result (walk.new.maker.node ≡ walk.old.maker.node + sizes.exprs_in_block (seen_block (drop (index + 1) block.now))) }
    ensures hyps { OnOk result (walk.new.hyps ≡ walk.old.hyps) }
    ensures owed { OnOk result (walk.new.owed ≡ walk.old.owed) }
{
    let exprs = exprs_in_block(&block[index + 1..])?;
    walk.maker.pass(exprs)
}

// What a statement owes, and what is known behind it; None where no path gets there.
#[cycle(exec)]
fn exec(
    alloc: Global,
    frame: &Frame,
    round: &Round,
    walk: &mut Walk,
    breaks: &mut Vec<Path>,
    here: Here,
    stmt: &Stmt,
) -> Result<Option<Here>, NoMemory>
    requires frame { IsFrame walk.old.maker.terms frame.now }
    requires sound { IsSound walk.old }
    requires slots { AreSlots walk.old.maker.terms here.vars.items }
    requires base { round.now.base ≤ count_of walk.old.hyps.items }
    requires breaks { ArePaths walk.old.maker.terms breaks.old.items }
    ensures value { IfOk result (λ h. Flows walk.old walk.new round.now.base breaks.old.items breaks.new.items h (spec.exec (body_at walk.old.maker.terms frame.now) (around round.now) (numbers.numbered_stmt (seen_stmt stmt.now) walk.old.maker.node) (spot_of walk.old here) walk.old.maker.count)) }
    ensures node { OnOk result (walk.new.maker.node ≡ walk.old.maker.node + sizes.exprs_in_stmt (seen_stmt stmt.now)) }
{
    let at = stmt.at;
    match &stmt.kind {
        StmtKind::Declare(ty, x, value) => { declare(alloc, frame, walk, here, at, ty, *x, value) }
        StmtKind::Assign(x, path, value) => {
            assign_part(alloc, frame, walk, here, at, *x, path.as_slice(), value)
        }
        StmtKind::Call(routine, args) => {
            call_method(alloc, frame, walk, here, at, *routine, args.as_slice())
        }
        StmtKind::Return(value) => leave_body(alloc, frame, walk, here, at, value),
        StmtKind::Assert(test) => hold(alloc, frame, walk, here, at, test),
        StmtKind::Break => {
            break_out(alloc, round, walk, breaks, &here)?;
            Ok(None)
        }
        StmtKind::Continue => turn_again(alloc, frame, round, walk, at, here),
        StmtKind::Skip => Ok(Some(here)),
        StmtKind::Fail => never(alloc, walk, at),
        StmtKind::If(test, first, second) => {
            let first = first.as_slice();
            let second = second.as_slice();
            let fork = begin_if(alloc, frame, walk, &here, test)?;
            let taken = exec_block(alloc, frame, round, walk, breaks, here, first)?;
            let paths = begin_else(alloc, walk, fork.base, fork.fails, &taken)?;
            let base = fork.base;
            let other = fork.here;
            let end = exec_block(alloc, frame, round, walk, breaks, other, second)?;
            end_if(alloc, frame, walk, base, paths, &end)
        }
        StmtKind::While(test, invariants, body) => {
            let invariants = invariants.as_slice();
            let body = body.as_slice();
            let head = begin_loop(alloc, frame, walk, here, at, test, invariants, body)?;
            let inner = Round {
                invariants,
                first: head.first,
                base: head.base,
            };
            let mut left = head.breaks;
            let begun = head.here;
            let end = exec_block(alloc, frame, &inner, walk, &mut left, begun, body)?;
            end_loop(alloc, frame, &inner, walk, at, left, &end)
        }
    }
}

/// What the statements of a block owe, and what is known behind them; None where no path gets there. What `break` leaves comes to the paths
/// that are given. Linear in the statements, but for what each of them takes.
#[cycle(exec)]
pub fn exec_block(
    alloc: Global,
    frame: &Frame,
    round: &Round,
    walk: &mut Walk,
    breaks: &mut Vec<Path>,
    here: Here,
    block: &[Stmt],
) -> Result<Option<Here>, NoMemory>
    requires frame { IsFrame walk.old.maker.terms frame.now }
    requires sound { IsSound walk.old }
    requires slots { AreSlots walk.old.maker.terms here.vars.items }
    requires base { round.now.base ≤ count_of walk.old.hyps.items }
    requires breaks { ArePaths walk.old.maker.terms breaks.old.items }
    ensures value { IfOk result (λ h. Flows walk.old walk.new round.now.base breaks.old.items breaks.new.items h (spec.exec_all (body_at walk.old.maker.terms frame.now) (around round.now) (numbers.numbered_block (seen_block block.now) walk.old.maker.node) (spot_of walk.old here) walk.old.maker.count)) }
    ensures node { OnOk result (walk.new.maker.node ≡ walk.old.maker.node + sizes.exprs_in_block (seen_block block.now)) }
{
    let mut here = here;
    for (index, stmt) in block.iter().enumerate() {
        let end = exec(alloc, frame, round, walk, breaks, here, stmt)?;
        match end {
            None => {
                pass_over(walk, block, index)?;
                return Ok(None);
            }
            Some(next) => here = next,
        }
    }
    Ok(Some(here))
}
