//! What a variable holds, and what goes into it.
ghost use Rattle.std.specs.Prelude.{Some, map};
ghost use Rattle.wy_core.specs.CoreSeen.{seen_alias, seen_ty};
ghost use Rattle.wy_value.specs.Seen.{seen};
ghost use Rattle.wy_sem.specs.Evaluation.{owed_member};
ghost use Rattle.wy_sem.specs.Expressions as spec;
ghost use Rattle.wy_sem.specs.Meter as sem;
ghost use Rattle.wy_sem.specs.Meter.{Done};
ghost use Rattle.wy_sem.specs.Operations as operations;
ghost use Rattle.wy_sem.specs.Statements as statements;
ghost use Rattle.wy_sem.specs.Statements.{Went, given};
ghost use Rattle.wy_eval_exprs.specs.Outcomes.{Gives, meter_of};
ghost use Rattle.wy_eval_exprs.specs.Scopes.{store_of};
ghost use Rattle.wy_eval_exprs.specs.Settings.{here};
ghost use Rattle.wy_eval.specs.Exits.{seen_exit};

use crate::exits::{Exit, stored};
use crate::program::Program;
use crate::variables::type_at;
use std::alloc::Global;
use wy_core::Ty;
use wy_eval_exprs::{Meter, Stop, put, variable};
use wy_value::Value;

/// The value goes into the variable, whose declared type it must be of.
pub fn stored_as(
    alloc: Global,
    program: &Program,
    types: &[Ty],
    at: u32,
    number: u32,
    store: Vec<Option<Value>>,
    value: Value,
    meter: &mut Meter,
) -> Result<Exit, Stop>
    ensures value { Gives seen_exit (given (owed_member here (Some program.now.declared.limit) (map seen_alias program.now.declared.types)) at (statements.type_at (map seen_ty types.now) number) (seen value) (Done (Went (spec.put (store_of store.items) number (Some (seen value))))) (meter_of meter.old)) result (meter_of meter.new) }
{
    match type_at(types, number) {
        Some(ty) => stored(alloc, program, at, ty, number, store, value, meter),
        None => Ok(Exit::Went(put(store, number, Some(value)))),
    }
}

/// What a variable holds, copied; where it is unset, it is a fault of kind member.
pub fn whole_of(alloc: Global, at: u32, store: &[Option<Value>], number: u32) -> Result<Value, Stop>
    ensures value { (m : sem.Meter) → Gives seen (operations.needed at (spec.slot (store_of store.now) number) Done m) result m }
{
    variable(alloc, at, store, &[], number)
}
