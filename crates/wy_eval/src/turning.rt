//! What follows the body of a loop.
ghost use Rattle.std.specs.Prelude.{map};
ghost use Rattle.wy_core.specs.CoreSeen.{seen_alias, seen_exprs};
ghost use Rattle.wy_eval_exprs.specs.Outcomes.{meter_of};
ghost use Rattle.wy_eval.specs.Exits.{seen_exit};
ghost use Rattle.wy_eval.specs.Turns.{GoesRound};

use crate::exits::Exit;
use crate::program::Program;
use std::alloc::Global;
use wy_core::Expr;
use wy_eval_exprs::{Meter, Stop, clauses_hold};
use wy_term::CondKind;
use wy_value::Value;

/// What follows the body of a loop.
#[derive(Drop)]
pub enum Turn {
    /// Another turn, on these variables.
    Again(Vec<Option<Value>>),
    /// The loop ends.
    Left(Exit),
}

/// The invariants are checked where the loop goes on: at the loop, or where its next turn was asked for.
pub fn turned(
    alloc: Global,
    program: &Program,
    at: u32,
    invariants: &[Expr],
    exit: Exit,
    meter: &mut Meter,
) -> Result<Turn, Stop>
    ensures value { GoesRound program.now.declared.limit (map seen_alias program.now.declared.types) at (seen_exprs invariants.now) (seen_exit exit) (meter_of meter.old) result (meter_of meter.new) }
{
    let declared = &program.declared;
    match exit {
        Exit::Went(next) => {
            let held = next.as_slice();
            clauses_hold(alloc, declared, CondKind::Keep, at, invariants, held, meter)?;
            Ok(Turn::Again(next))
        }
        Exit::Continued(place, next) => {
            let held = next.as_slice();
            clauses_hold(
                alloc,
                declared,
                CondKind::Keep,
                place,
                invariants,
                held,
                meter,
            )?;
            Ok(Turn::Again(next))
        }
        Exit::Broke(next) => Ok(Turn::Left(Exit::Went(next))),
        Exit::Gave(value) => Ok(Turn::Left(Exit::Gave(value))),
    }
}
