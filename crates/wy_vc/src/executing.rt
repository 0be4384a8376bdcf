//! The body of a function or method.
ghost use Rattle.std.specs.Prelude.{◌≡◌, ◌+◌, [], IfOk, OnOk};
ghost use Rattle.wy_vc_spec.specs.Numbered.{numbered_block};
ghost use Rattle.wy_vc_spec.specs.Sizes as sizes;
ghost use Rattle.wy_vc_spec.specs.Statements as spec;
ghost use Rattle.wy_core.specs.CoreSeen.{seen_block};
ghost use Rattle.wy_vc_body.specs.Frames.{IsFrame, body_at};
ghost use Rattle.wy_vc_body.specs.Going.{Went};
ghost use Rattle.wy_vc_body.specs.Paths.{spot_of};
ghost use Rattle.wy_vc_body.specs.wy_vc_exprs.Slots.{AreSlots};
ghost use Rattle.wy_vc_body.specs.wy_vc_exprs.State.{IsSound};

use crate::rounds::Round;
use crate::statements::exec_block;
use std::alloc::Global;
use wy_core::{Expr, Stmt};
use wy_term::NoMemory;
use wy_vc_body::{Frame, Here, Walk};

/// The statements of a body, which stand in no loop, from what is known where the body begins: what they owe, and what is known behind
/// them; None where no path gets behind them. Linear in the statements, but for what is known at each `if` and loop, which is copied.
pub fn exec_body(
    alloc: Global,
    frame: &Frame,
    walk: &mut Walk,
    here: Here,
    block: &[Stmt],
) -> Result<Option<Here>, NoMemory>
    requires frame { IsFrame walk.old.maker.terms frame.now }
    requires sound { IsSound walk.old }
    requires slots { AreSlots walk.old.maker.terms here.vars.items }
    ensures value { IfOk result (λ h. Went walk.old walk.new h (spec.exec_all (body_at walk.old.maker.terms frame.now) [] (numbered_block (seen_block block.now) walk.old.maker.node) (spot_of walk.old here) walk.old.maker.count)) }
    ensures node { OnOk result (walk.new.maker.node ≡ walk.old.maker.node + sizes.exprs_in_block (seen_block block.now)) }
{
    let none: Vec<Expr> = Vec::new(alloc);
    let round = Round {
        invariants: none.as_slice(),
        first: 0,
        base: walk.mark(),
    };
    let mut breaks = Vec::new(alloc);
    exec_block(alloc, frame, &round, walk, &mut breaks, here, block)
}
