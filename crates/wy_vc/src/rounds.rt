//! The loop around a statement.
ghost use Rattle.std.specs.Prelude.{◌≡◌, ◌≤◌, length as count_of, None, IfOk, OnOk};
ghost use Rattle.wy_vc_spec.specs.Spots as spots;
ghost use Rattle.wy_vc_spec.specs.Statements as spec;
ghost use Rattle.wy_core.specs.CoreTree as tree;
ghost use Rattle.wy_vc_body.specs.Frames.{IsFrame, body_at};
ghost use Rattle.wy_vc_body.specs.Going.{Went};
ghost use Rattle.wy_vc_body.specs.Paths.{ArePaths, spot_of};
ghost use Rattle.wy_vc.specs.Flows.{Flows};
ghost use Rattle.wy_vc.specs.Rounds.{around};
ghost use Rattle.wy_vc_body.specs.wy_vc_exprs.Slots.{AreSlots};
ghost use Rattle.wy_vc_body.specs.wy_vc_exprs.State.{IsSound};

use std::alloc::Global;
use wy_core::Expr;
use wy_term::{CondKind, NoMemory};
use wy_vc_body::{Frame, Here, Path, Walk, owe_invariants, path_here};

/// The loop around: its invariants, the number of the first of their expressions, and how many hypotheses there are where the paths of a
/// turn part. Around what stands in no loop there are no invariants.
#[derive(Drop)]
pub struct Round<'a> {
    pub invariants: &'a [Expr],
    pub first: usize,
    pub base: usize,
}

/// `break`: one more path comes behind the loop around.
pub fn break_out(
    alloc: Global,
    round: &Round,
    walk: &Walk,
    breaks: &mut Vec<Path>,
    here: &Here,
) -> Result<(), NoMemory>
    requires sound { IsSound walk.now }
    requires slots { AreSlots walk.now.maker.terms here.now.vars.items }
    requires base { round.now.base ≤ count_of walk.now.hyps.items }
    requires breaks { ArePaths walk.now.maker.terms breaks.old.items }
    ensures value { OnOk result (Flows walk.now walk.now round.now.base breaks.old.items breaks.new.items None (spots.leaves walk.now.maker.count (spot_of walk.now here.now))) }
{
    let path = path_here(alloc, walk, here, round.base)?;
    breaks.push(path)?;
    Ok(())
}

/// `continue`: the invariants of the loop around hold again, and no path goes on.
pub fn turn_again(
    alloc: Global,
    frame: &Frame,
    round: &Round,
    walk: &mut Walk,
    at: u32,
    here: Here,
) -> Result<Option<Here>, NoMemory>
    requires frame { IsFrame walk.old.maker.terms frame.now }
    requires sound { IsSound walk.old }
    requires slots { AreSlots walk.old.maker.terms here.vars.items }
    ensures value { IfOk result (λ h. Went walk.old walk.new h (spec.exec (body_at walk.old.maker.terms frame.now) (around round.now) (tree.ContinueStmt at) (spot_of walk.old here) walk.old.maker.count)) }
    ensures node { OnOk result (walk.new.maker.node ≡ walk.old.maker.node) }
{
    owe_invariants(
        alloc,
        frame,
        walk,
        here.vars.as_slice(),
        CondKind::Keep,
        at,
        round.invariants,
        round.first,
    )?;
    Ok(None)
}
