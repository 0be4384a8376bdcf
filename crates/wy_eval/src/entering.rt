//! What is asked of arguments before a body runs.
ghost use Rattle.std.specs.Prelude.{◌≡◌, IfOk, Some, map};
ghost use Rattle.wy_core.specs.CoreSeen.{seen_alias, seen_param, seen_routine};
ghost use Rattle.wy_value.specs.Seen.{seen};
ghost use Rattle.wy_sem.specs.Evaluation.{arguments, entry_of as spec_entry_of, owed_member};
ghost use Rattle.wy_eval_exprs.specs.Outcomes.{meter_of};
ghost use Rattle.wy_eval_exprs.specs.Scopes.{store_of};
ghost use Rattle.wy_eval_exprs.specs.Settings.{here};
ghost use Rattle.wy_eval.specs.Entries.{GoesOn, entering};

use crate::giving::given;
use crate::program::Program;
use std::alloc::Global;
use wy_core::{Param, Routine};
use wy_eval_exprs::{Meter, Stop, clauses_hold, entry_of};
use wy_term::CondKind;
use wy_value::Value;

/// The number of arguments, their types and the requires clauses are checked, at the place of the call. It
/// gives the variables at entry.
pub fn entered(
    alloc: Global,
    program: &Program,
    routine: &Routine,
    at: u32,
    args: &[Value],
    meter: &mut Meter,
) -> Result<Vec<Option<Value>>, Stop>
    ensures store { IfOk result (λ store. store_of store.items ≡ spec_entry_of (seen_routine routine.now) (map seen args.now)) }
    ensures value { GoesOn (entering program.now.declared.limit (map seen_alias program.now.declared.types) (seen_routine routine.now) at (map seen args.now)) (meter_of meter.old) result (meter_of meter.new) }
{
    let params = routine.params.as_slice();
    if args.len() != params.len() {
        return Err(Stop::Fault(CondKind::Member, at));
    }
    arguments_given(alloc, program, at, params, args, meter)?;
    let variables = routine.variables.as_slice();
    let entry = entry_of(alloc, variables, params, args)?;
    let store = entry.as_slice();
    let declared = &program.declared;
    let clauses = routine.preconditions.as_slice();
    clauses_hold(
        alloc,
        declared,
        CondKind::Requires,
        at,
        clauses,
        store,
        meter,
    )?;
    Ok(entry)
}

// Each argument must be of the type of its parameter.
fn arguments_given(
    alloc: Global,
    program: &Program,
    at: u32,
    params: &[Param],
    args: &[Value],
    meter: &mut Meter,
) -> Result<(), Stop>
    ensures value { GoesOn (arguments (owed_member here (Some program.now.declared.limit) (map seen_alias program.now.declared.types)) at (map seen_param params.now) (map seen args.now)) (meter_of meter.old) result (meter_of meter.new) }
{
    let mut number = 0;
    for param in params {
        if number >= args.len() {
            return Ok(());
        }
        let ty = &param.ty;
        let arg = &args[number];
        given(alloc, program, at, ty, arg, meter)?;
        number += 1;
    }
    Ok(())
}
