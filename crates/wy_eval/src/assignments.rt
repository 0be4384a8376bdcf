//! Assignments, with a path into a value and without one.
ghost use Rattle.std.specs.Prelude.{◌≡◌, map};
ghost use Rattle.wy_core.specs.CoreSeen.{seen_alias, seen_core, seen_expr, seen_step};
ghost use Rattle.wy_core.specs.CoreTree.{aliases_of};
ghost use Rattle.wy_value.specs.Seen.{seen};
ghost use Rattle.wy_sem.specs.Statements as spec;
ghost use Rattle.wy_eval_exprs.specs.Outcomes.{Gives, meter_of};
ghost use Rattle.wy_eval_exprs.specs.Scopes.{store_of};
ghost use Rattle.wy_eval.specs.Exits.{frame, seen_exit};
ghost use Rattle.wy_eval.specs.Settings.{StepsTo, code, slots_in};

use crate::exits::Exit;
use crate::expressions::value_of;
use crate::program::Program;
use crate::storing::{stored_as, whole_of};
use std::alloc::Global;
use wy_core::{Core, Expr, Routine, Step, StepKind, Ty};
use wy_eval_exprs::{Meter, Slot, Stop, field_of, index_of, item_at, updated};
use wy_items::Items;
use wy_value::Value;

/// An assignment: the indices of its path, each checked as soon as it is evaluated, then the value, then
/// the update.
#[cycle(code)]
pub fn assigned(
    alloc: Global,
    room: u32,
    program: &Program,
    core: &Core,
    calls: usize,
    routine: &Routine,
    types: &[Ty],
    entry: &[Option<Value>],
    at: u32,
    number: u32,
    path: &[Step],
    value: &Expr,
    store: Vec<Option<Value>>,
    meter: &mut Meter,
) -> Result<Exit, Stop>
    requires { map seen_alias program.now.declared.types ≡ aliases_of (seen_core core.now) }
    ensures value { Gives seen_exit (spec.assigned (code (seen_core core.now) (map seen_alias program.now.declared.types) program.now.declared.limit calls) (frame program.now.declared.limit (map seen_alias program.now.declared.types) routine.now types.now (store_of entry.now)) at number (map seen_step path.now) (seen_expr value.now) (store_of store.items) (meter_of meter.old)) result (meter_of meter.new) }
{
    let held = store.as_slice();
    if path.len() == 0 {
        let made = value_of(alloc, room, program, core, calls, held, &[], value, meter)?;
        return stored_as(alloc, program, types, at, number, store, made, meter);
    }
    let whole = whole_of(alloc, at, held, number)?;
    let slots = path_of(alloc, room, program, core, calls, held, path, &whole, meter)?;
    let value = value_of(alloc, room, program, core, calls, held, &[], value, meter)?;
    let slots = slots.as_slice();
    let made = updated(alloc, whole, slots, value)?;
    stored_as(alloc, program, types, at, number, store, made, meter)
}

/// The parts that a path takes of a value: each index is evaluated and checked before the next.
#[cycle(code)]
fn path_of(
    alloc: Global,
    room: u32,
    program: &Program,
    core: &Core,
    calls: usize,
    store: &[Option<Value>],
    path: &[Step],
    whole: &Value,
    meter: &mut Meter,
) -> Result<Items<Slot>, Stop>
    requires { map seen_alias program.now.declared.types ≡ aliases_of (seen_core core.now) }
    ensures value { Gives slots_in (spec.path_of (code (seen_core core.now) (map seen_alias program.now.declared.types) program.now.declared.limit calls) (store_of store.now) (map seen_step path.now) (seen whole.now) (meter_of meter.old)) result (meter_of meter.new) }
{
    let mut slots = Items::new(alloc);
    let mut part = whole.copy(alloc)?;
    for step in path {
        let taken = stepped(alloc, room, program, core, calls, store, step, &part, meter)?;
        slots.push(taken.0)?;
        part = taken.1;
    }
    Ok(slots)
}

/// A step into a value: the part that it takes, and what that is.
#[cycle(code)]
fn stepped(
    alloc: Global,
    room: u32,
    program: &Program,
    core: &Core,
    calls: usize,
    store: &[Option<Value>],
    step: &Step,
    part: &Value,
    meter: &mut Meter,
) -> Result<(Slot, Value), Stop>
    requires { map seen_alias program.now.declared.types ≡ aliases_of (seen_core core.now) }
    ensures value { StepsTo (code (seen_core core.now) (map seen_alias program.now.declared.types) program.now.declared.limit calls) (store_of store.now) (seen_step step.now) (seen part.now) (meter_of meter.old) result (meter_of meter.new) }
{
    let at = step.at;
    match &step.kind {
        StepKind::Index(index) => {
            let number = value_of(alloc, room, program, core, calls, store, &[], index, meter)?;
            let item = index_of(at, part, &number)?;
            let next = item_at(alloc, part, item)?;
            Ok((Slot::Item(item), next))
        }
        StepKind::Field(name) => {
            let next = field_of(alloc, at, part, name)?;
            let held = name.copy(alloc)?;
            Ok((Slot::Field(held), next))
        }
    }
}
