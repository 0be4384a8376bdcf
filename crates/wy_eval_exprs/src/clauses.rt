//! Whether what contracts say holds.
ghost use Rattle.std.specs.Prelude.{Some, map};
ghost use Rattle.wy_core.specs.CoreSeen.{seen_alias, seen_expr, seen_exprs};
ghost use Rattle.wy_sem.specs.Expressions as spec;
ghost use Rattle.wy_sem.specs.Meter.{Done};
ghost use Rattle.wy_sem.specs.TypeTests.{clause_setting};
ghost use Rattle.wy_eval_exprs.specs.Outcomes.{Gives, itself, meter_of};
ghost use Rattle.wy_eval_exprs.specs.Scopes.{store_of};
ghost use Rattle.wy_eval_exprs.specs.Settings.{here};

use crate::declared::{Declared, ROOM};
use crate::evaluation::value_of;
use crate::meter::Meter;
use crate::operands::as_truth;
use crate::places::place_of;
use crate::stop::Stop;
use std::alloc::Global;
use wy_core::Expr;
use wy_term::CondKind;
use wy_value::Value;

/// Whether an expression of a contract holds, which spends no tick. Where it is no truth value, it is
/// a fault of kind member at this place.
pub fn holds_at(
    alloc: Global,
    declared: &Declared,
    at: u32,
    expr: &Expr,
    store: &[Option<Value>],
    meter: &mut Meter,
) -> Result<bool, Stop>
    ensures value { Gives itself (spec.holds_at (clause_setting here (Some declared.now.limit) (map seen_alias declared.now.types)) at (seen_expr expr.now) (store_of store.now) (meter_of meter.old)) result (meter_of meter.new) }
{
    let bare = declared.types.len();
    if bare == usize::MAX {
        return Err(Stop::NoMemory);
    }
    let value = value_of(
        alloc,
        ROOM,
        declared,
        bare + 1,
        false,
        store,
        &[],
        expr,
        meter,
    )?;
    as_truth(at, &value)
}

/// Each of the clauses must hold, else it is a fault of this kind at this place.
pub fn clauses_hold(
    alloc: Global,
    declared: &Declared,
    kind: CondKind,
    at: u32,
    clauses: &[Expr],
    store: &[Option<Value>],
    meter: &mut Meter,
) -> Result<(), Stop>
    ensures value { Gives itself (spec.clauses (clause_setting here (Some declared.now.limit) (map seen_alias declared.now.types)) kind at (seen_exprs clauses.now) (store_of store.now) (Done tt) (meter_of meter.old)) result (meter_of meter.new) }
{
    for clause in clauses {
        let place = place_of(clause);
        let holds = holds_at(alloc, declared, place, clause, store, meter)?;
        if !holds {
            return Err(Stop::Fault(kind, at));
        }
    }
    Ok(())
}
