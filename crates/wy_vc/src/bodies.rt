//! What the body of a function or method owes.
ghost use Rattle.std.specs.Prelude.{OnOk, Option};
ghost use Rattle.wy_vc_spec.specs.Numbered.{numbered_routine};
ghost use Rattle.wy_vc_spec.specs.Programs as spec;
ghost use Rattle.wy_vc_spec.specs.Spots.{Spot};
ghost use Rattle.wy_core.specs.CoreSeen.{seen_output, seen_routine};
ghost use Rattle.wy_vc_body.specs.Frames.{IsFrame, body_at, program_of};
ghost use Rattle.wy_vc.specs.Entering.{Owes};
ghost use Rattle.wy_vc_body.specs.Paths.{IsEnd};
ghost use Rattle.wy_vc_tables.specs.program_names.Described.{IsCalled, IsDescribed};
ghost use Rattle.wy_vc_body.specs.wy_vc_exprs.State.{IsSound};

use crate::begin::begin;
use crate::entry::enter;
use crate::executing::exec_body;
use std::alloc::Global;
use wy_core::{Core, Routine};
use wy_term::NoMemory;
use wy_vc_body::{Frame, Here, Walk, assume_clauses, declared_types, leave};
use wy_vc_tables::program_names::{Called, Program};

// The end of a body that gives nothing back counts as a `return` at its declaration, where a path gets there; the end of one that gives
// something back is never reached.
fn owe_end(alloc: Global, frame: &Frame, walk: &mut Walk, end: Option<Here>) -> Result<(), NoMemory>
    requires frame { IsFrame walk.old.maker.terms frame.now }
    requires sound { IsSound walk.old }
    ensures value { (p : Option Spot) → IsEnd walk.old end p → OnOk result (Owes walk.old walk.new (spec.end_of (body_at walk.old.maker.terms frame.now) (seen_output frame.now.routine.now.result) p walk.old.maker.count)) }
{
    match &frame.routine.result {
        Some(_) => Ok(()),
        None => match end {
            None => Ok(()),
            Some(_) => leave(alloc, frame, walk, frame.routine.at, None),
        },
    }
}

/// What the body of a function or method owes, whose expressions have these numbers: what its statements owe where its requires clauses hold
/// of parameters of their types.
pub fn owe_body(
    alloc: Global,
    core: &Core,
    program: &Program,
    walk: &mut Walk,
    routine: &Routine,
    called: Called,
) -> Result<(), NoMemory>
    requires described { IsDescribed core.now program.now }
    requires called { IsCalled (numbered_routine (seen_routine routine.now) called.preconditions) routine.now called }
    requires sound { IsSound walk.old }
    ensures value { OnOk result (Owes walk.old walk.new (spec.body_conditions (program_of core.now program.now) (numbered_routine (seen_routine routine.now) called.preconditions))) }
{
    begin(walk, called.preconditions);
    let here = enter(alloc, core, program, walk, routine)?;
    let words = routine.variables.as_slice();
    let clauses = routine.preconditions.as_slice();
    let mut entry = Vec::from_slice(alloc, here.vars.as_slice())?;
    assume_clauses(alloc, core, program, words, walk, &mut entry, clauses)?;
    walk.maker.node = called.body;
    let types = declared_types(alloc, routine)?;
    let frame = Frame {
        core,
        program,
        routine,
        called,
        types,
        entry,
    };
    let end = exec_body(alloc, &frame, walk, here, routine.body.as_slice())?;
    owe_end(alloc, &frame, walk, end)
}
