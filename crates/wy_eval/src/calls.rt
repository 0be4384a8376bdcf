//! Calls of functions and methods.
ghost use Rattle.std.specs.Prelude.{◌≡◌, Some, map};
ghost use Rattle.wy_core.specs.CoreSeen.{seen_alias, seen_core};
ghost use Rattle.wy_core.specs.CoreTree.{aliases_of};
ghost use Rattle.wy_value.specs.Seen.{seen};
ghost use Rattle.wy_sem.specs.Evaluation.{run as spec_run};
ghost use Rattle.wy_eval_exprs.specs.Operands.{seen_option};
ghost use Rattle.wy_eval_exprs.specs.Outcomes.{Gives, meter_of};
ghost use Rattle.wy_eval_exprs.specs.Settings.{here};

use crate::built_ins::{built_in, find};
use crate::entering::entered;
use crate::leaving::{copied, result_of};
use crate::program::Program;
use crate::statements::exec_all;
use crate::variables::types_of;
use std::alloc::Global;
use wy_core::Core;
use wy_eval_exprs::{Meter, Stop};
use wy_value::Value;

/// A call, which spends a tick. Calls nest no deeper than the number says.
#[cycle(code)]
pub fn run(
    alloc: Global,
    room: u32,
    program: &Program,
    core: &Core,
    calls: usize,
    number: u32,
    at: u32,
    args: &[Value],
    meter: &mut Meter,
) -> Result<Option<Value>, Stop>
    requires { map seen_alias program.now.declared.types ≡ aliases_of (seen_core core.now) }
    ensures value { Gives seen_option (spec_run here (Some program.now.declared.limit) (seen_core core.now) calls number at (map seen args.now) (meter_of meter.old)) result (meter_of meter.new) }
{
    if calls == 0 {
        return Err(Stop::More);
    }
    let fewer = calls - 1;
    meter.tick()?;
    let decls = core.decls.as_slice();
    match find(decls, number) {
        Some(routine) => {
            let types = types_of(alloc, routine)?;
            let types = types.as_slice();
            let entry = entered(alloc, program, routine, at, args, meter)?;
            let entry = entry.as_slice();
            let store = copied(alloc, entry)?;
            let body = routine.body.as_slice();
            let exit = exec_all(
                alloc, room, program, core, fewer, routine, types, entry, body, store, meter,
            )?;
            result_of(alloc, program, routine, types, entry, exit, meter)
        }
        None => built_in(alloc, program, core, number, at, args, meter),
    }
}
