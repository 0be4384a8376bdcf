//! How a statement ends, and how a value goes into a variable.
ghost use Rattle.std.specs.Prelude.{Some, map};
ghost use Rattle.wy_core.specs.CoreSeen.{seen_alias, seen_ty};
ghost use Rattle.wy_value.specs.Seen.{seen};
ghost use Rattle.wy_sem.specs.Evaluation.{owed_member};
ghost use Rattle.wy_sem.specs.Expressions.{put as spec_put};
ghost use Rattle.wy_sem.specs.Meter.{Done};
ghost use Rattle.wy_sem.specs.Statements.{Went, given as spec_given};
ghost use Rattle.wy_eval_exprs.specs.Outcomes.{Gives, meter_of};
ghost use Rattle.wy_eval_exprs.specs.Scopes.{store_of};
ghost use Rattle.wy_eval_exprs.specs.Settings.{here};
ghost use Rattle.wy_eval.specs.Exits.{seen_exit};

use crate::giving::given;
use crate::program::Program;
use std::alloc::Global;
use wy_core::Ty;
use wy_eval_exprs::{Meter, Stop, put};
use wy_value::Value;

/// How a statement ends.
#[derive(Drop)]
pub enum Exit {
    /// It went on.
    Went(Vec<Option<Value>>),
    /// It left the loop.
    Broke(Vec<Option<Value>>),
    /// It asked for the loop's next turn, at this place.
    Continued(u32, Vec<Option<Value>>),
    /// It gave the result.
    Gave(Option<Value>),
}

/// The value goes into the variable, whose type it must be of: else it is a fault of kind member at this
/// place.
pub fn stored(
    alloc: Global,
    program: &Program,
    at: u32,
    ty: &Ty,
    variable: u32,
    store: Vec<Option<Value>>,
    value: Value,
    meter: &mut Meter,
) -> Result<Exit, Stop>
    ensures value { Gives seen_exit (spec_given (owed_member here (Some program.now.declared.limit) (map seen_alias program.now.declared.types)) at (seen_ty ty.now) (seen value) (Done (Went (spec_put (store_of store.items) variable (Some (seen value))))) (meter_of meter.old)) result (meter_of meter.new) }
{
    given(alloc, program, at, ty, &value, meter)?;
    Ok(Exit::Went(put(store, variable, Some(value))))
}
