//! Whether requires clauses hold.
ghost use Rattle.std.specs.Prelude.{Some, map};
ghost use Rattle.wy_core.specs.CoreSeen.{seen_alias, seen_exprs};
ghost use Rattle.wy_sem.specs.Precondition.{requires_met};
ghost use Rattle.wy_sem.specs.TypeTests.{clause_setting};
ghost use Rattle.wy_eval_exprs.specs.Outcomes.{Gives, meter_of};
ghost use Rattle.wy_eval_exprs.specs.Scopes.{store_of};
ghost use Rattle.wy_eval_exprs.specs.Settings.{here};
ghost use Rattle.wy_eval_exprs.specs.Verdicts.{requires_verdict};

use crate::aliases::forgiven;
use crate::clauses::holds_at;
use crate::declared::Declared;
use crate::meter::Meter;
use crate::places::place_of;
use crate::stop::Stop;
use std::alloc::Global;
use wy_core::Expr;
use wy_value::Value;

/// The number, from 1, of the first requires clause that isn't true; one that faults isn't true.
pub fn first_not_true(
    alloc: Global,
    declared: &Declared,
    clauses: &[Expr],
    store: &[Option<Value>],
    meter: &mut Meter,
) -> Result<Option<u32>, Stop>
    ensures value { Gives requires_verdict (requires_met (clause_setting here (Some declared.now.limit) (map seen_alias declared.now.types)) (seen_exprs clauses.now) (store_of store.now) 1 (meter_of meter.old)) result (meter_of meter.new) }
{
    let mut number: u32 = 0;
    for clause in clauses {
        if number == u32::MAX {
            return Err(Stop::NoMemory);
        }
        number += 1;
        let at = place_of(clause);
        let answer = holds_at(alloc, declared, at, clause, store, meter);
        let holds = forgiven(answer)?;
        if !holds {
            return Ok(Some(number));
        }
    }
    Ok(None)
}
