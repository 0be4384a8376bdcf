//! How a call gives its result.
ghost use Rattle.std.specs.Prelude.{◌≡◌, IfOk, Some, map};
ghost use Rattle.wy_core.specs.CoreSeen.{seen_alias, seen_output};
ghost use Rattle.wy_value.specs.Seen.{seen};
ghost use Rattle.wy_sem.specs.Evaluation.{result_of as spec_result_of};
ghost use Rattle.wy_sem.specs.Statements.{leave as spec_leave};
ghost use Rattle.wy_sem.specs.TypeTests.{clause_setting, set_if};
ghost use Rattle.wy_eval_exprs.specs.Operands.{seen_option};
ghost use Rattle.wy_eval_exprs.specs.Outcomes.{Gives, meter_of};
ghost use Rattle.wy_eval_exprs.specs.Scopes.{store_of};
ghost use Rattle.wy_eval_exprs.specs.Settings.{here};
ghost use Rattle.wy_eval.specs.Exits.{frame, gave, seen_exit};

use crate::exits::Exit;
use crate::giving::given;
use crate::program::Program;
use std::alloc::{AllocError, Global};
use wy_core::{Routine, Ty};
use wy_eval_exprs::{Meter, Stop, clauses_hold, put};
use wy_term::CondKind;
use wy_value::Value;

/// The result is given: it must be of its type, and the ensures clauses must hold of it and of the
/// parameters as they were at entry.
pub fn leave(
    alloc: Global,
    program: &Program,
    routine: &Routine,
    types: &[Ty],
    entry: &[Option<Value>],
    at: u32,
    value: Option<Value>,
    meter: &mut Meter,
) -> Result<Option<Value>, Stop>
    ensures value { Gives gave (spec_leave (clause_setting here (Some program.now.declared.limit) (map seen_alias program.now.declared.types)) (frame program.now.declared.limit (map seen_alias program.now.declared.types) routine.now types.now (store_of entry.now)) at (seen_output routine.now.result) (seen_option value) (meter_of meter.old)) result (meter_of meter.new) }
{
    let declared = &program.declared;
    let clauses = routine.postconditions.as_slice();
    match value {
        None => match &routine.result {
            None => {
                clauses_hold(
                    alloc,
                    declared,
                    CondKind::Ensures,
                    at,
                    clauses,
                    entry,
                    meter,
                )?;
                Ok(None)
            }
            Some(_) => Err(Stop::Fault(CondKind::Member, at)),
        },
        Some(value) => match &routine.result {
            None => Err(Stop::Fault(CondKind::Member, at)),
            Some(output) => {
                let ty = &output.ty;
                given(alloc, program, at, ty, &value, meter)?;
                let store = with_result(alloc, entry, output.variable, &value)?;
                let store = store.as_slice();
                clauses_hold(
                    alloc,
                    declared,
                    CondKind::Ensures,
                    at,
                    clauses,
                    store,
                    meter,
                )?;
                Ok(Some(value))
            }
        },
    }
}

// The variables at entry, copied, with the result in its own.
fn with_result(
    alloc: Global,
    entry: &[Option<Value>],
    variable: Option<u32>,
    value: &Value,
) -> Result<Vec<Option<Value>>, AllocError>
    ensures value { IfOk result (λ store. store_of store.items ≡ set_if (store_of entry.now) variable (Some (seen value.now))) }
{
    let store = copied(alloc, entry)?;
    match variable {
        Some(variable) => {
            let copy = value.copy(alloc)?;
            Ok(put(store, variable, Some(copy)))
        }
        None => Ok(store),
    }
}

/// These variables, copied.
pub fn copied(alloc: Global, entry: &[Option<Value>]) -> Result<Vec<Option<Value>>, AllocError>
    ensures value { IfOk result (λ store. store_of store.items ≡ store_of entry.now) }
{
    let mut store = Vec::new(alloc);
    for held in entry {
        let copy = copy_of(alloc, held)?;
        store.push(copy)?;
    }
    Ok(store)
}

fn copy_of(alloc: Global, held: &Option<Value>) -> Result<Option<Value>, AllocError>
    ensures value { IfOk result (λ copy. seen_option copy ≡ seen_option held.now) }
{
    match held {
        None => Ok(None),
        Some(value) => {
            let copy = value.copy(alloc)?;
            Ok(Some(copy))
        }
    }
}

/// What a body that ended gives. Its end counts as a return without a value, at the declaration.
pub fn result_of(
    alloc: Global,
    program: &Program,
    routine: &Routine,
    types: &[Ty],
    entry: &[Option<Value>],
    exit: Exit,
    meter: &mut Meter,
) -> Result<Option<Value>, Stop>
    ensures value { Gives seen_option (spec_result_of (clause_setting here (Some program.now.declared.limit) (map seen_alias program.now.declared.types)) (frame program.now.declared.limit (map seen_alias program.now.declared.types) routine.now types.now (store_of entry.now)) routine.now.at (seen_exit exit) (meter_of meter.old)) result (meter_of meter.new) }
{
    let at = routine.at;
    match exit {
        Exit::Gave(value) => Ok(value),
        Exit::Went(_) => leave(alloc, program, routine, types, entry, at, None, meter),
        Exit::Broke(_) => Err(Stop::Fault(CondKind::Member, at)),
        Exit::Continued(_, _) => Err(Stop::Fault(CondKind::Member, at)),
    }
}
