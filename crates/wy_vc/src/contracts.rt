//! What the clauses of a function or method owe.
ghost use Rattle.std.specs.Prelude.{ℕ, OnOk};
ghost use Rattle.wy_vc_spec.specs.Numbered.{numbered_list, numbered_routine};
ghost use Rattle.wy_vc_spec.specs.Programs as spec;
ghost use Rattle.wy_core.specs.CoreSeen.{seen_exprs, seen_routine};
ghost use Rattle.wy_vc_body.specs.Frames.{program_of};
ghost use Rattle.wy_vc.specs.Entering.{Owes};
ghost use Rattle.wy_vc_tables.specs.program_names.Described.{IsDescribed};
ghost use Rattle.wy_vc_body.specs.wy_vc_exprs.Slots.{AreSlots, slots_of};
ghost use Rattle.wy_vc_body.specs.wy_vc_exprs.State.{IsSound, hyps_of};

use crate::begin::begin;
use crate::entry::{enter, enter_result};
use std::alloc::Global;
use wy_core::{Core, Routine};
use wy_term::NoMemory;
use wy_vc_body::{Walk, walk_clauses};
use wy_vc_tables::program_names::Program;

// What the ensures clauses owe, the first of whose expressions comes next, where parameters stand for these terms; where there are none the
// result takes no name.
fn owe_ensures(
    alloc: Global,
    core: &Core,
    program: &Program,
    walk: &mut Walk,
    routine: &Routine,
    vars: &[Option<u32>],
) -> Result<(), NoMemory>
    requires described { IsDescribed core.now program.now }
    requires sound { IsSound walk.old }
    requires slots { AreSlots walk.old.maker.terms vars.now }
    ensures value { (k : ℕ) → OnOk result (Owes walk.old walk.new (spec.ensures_conditions (program_of core.now program.now) (numbered_routine (seen_routine routine.now) k) (numbered_list (seen_exprs routine.now.postconditions) walk.old.maker.node) (slots_of walk.old.maker.terms vars.now) (hyps_of walk.old) walk.old.maker.count)) }
{
    let words = routine.variables.as_slice();
    let clauses = routine.postconditions.as_slice();
    if clauses.is_empty() {
        return Ok(());
    }
    let mut inner = Vec::from_slice(alloc, vars)?;
    enter_result(alloc, core, program, walk, routine, &mut inner)?;
    walk_clauses(alloc, core, program, words, walk, inner.as_slice(), clauses)
}

/// What the contract of a function or method owes, the first of whose expressions has this number: what its requires clauses owe, and then
/// its ensures clauses, each assumed by the next.
pub fn owe_contract(
    alloc: Global,
    core: &Core,
    program: &Program,
    walk: &mut Walk,
    routine: &Routine,
    first: usize,
) -> Result<(), NoMemory>
    requires described { IsDescribed core.now program.now }
    requires sound { IsSound walk.old }
    ensures value { OnOk result (Owes walk.old walk.new (spec.contract_conditions (program_of core.now program.now) (numbered_routine (seen_routine routine.now) first))) }
{
    begin(walk, first);
    let here = enter(alloc, core, program, walk, routine)?;
    let words = routine.variables.as_slice();
    let clauses = routine.preconditions.as_slice();
    walk_clauses(
        alloc,
        core,
        program,
        words,
        walk,
        here.vars.as_slice(),
        clauses,
    )?;
    owe_ensures(alloc, core, program, walk, routine, here.vars.as_slice())
}
