//! Where two paths meet.
ghost use Rattle.std.specs.Prelude.{[], OnOk};
ghost use Rattle.wy_core.specs.CoreSeen.{seen_ty};
ghost use Rattle.wy_types.specs.Names.{types_of};
ghost use Rattle.wy_types.specs.Questions.{IsOver};
ghost use Rattle.wy_types.specs.Recursion.{RecurThroughParts};
ghost use Rattle.wy_flow_spec.specs.typing.Outcomes.{Meets};
ghost use Rattle.wy_flow_spec.specs.environment.Seen.{seen_environment, seen_slot, seen_slots};
ghost use Rattle.wy_flow_spec.specs.typing.Joins as join;

use crate::checks::made::norm_at;
use crate::checks::terms::union_of;
use std::alloc::Global;
use wy_core::same::same_ty;
use wy_flow_spec::environment::{Environment, Shared};
use wy_flow_spec::typing::FlowFault;
use wy_items::{Items, at as item_at};
use wy_types::{Names, Question};

/// The union of both types; where they are the same, nothing is asked.
pub fn joined_type(
    alloc: Global,
    names: &Names,
    question: &mut Question,
    at: u32,
    first: &Shared,
    second: &Shared,
) -> Result<Shared, FlowFault>
    requires recursion { RecurThroughParts (types_of names.now) }
    requires over { IsOver (types_of names.now) question.old }
    ensures value { Meets (join.JoinedType (types_of names.now) at (seen_ty first.now) (seen_ty second.now)) seen_ty result }
    ensures over { OnOk result (IsOver (types_of names.now) question.new) }
{
    if same_ty(first.get(), second.get()) {
        return Ok(first.share()?);
    }
    let union = union_of(alloc, at, first.get(), second.get())?;
    norm_at(alloc, names, question, at, &union)
}

fn joined_slot(
    alloc: Global,
    names: &Names,
    question: &mut Question,
    at: u32,
    first: &Option<Shared>,
    second: &Option<Shared>,
) -> Result<Option<Shared>, FlowFault>
    requires recursion { RecurThroughParts (types_of names.now) }
    requires over { IsOver (types_of names.now) question.old }
    ensures value { Meets (join.JoinedSlot (types_of names.now) at (seen_slot first.now) (seen_slot second.now)) seen_slot result }
    ensures over { OnOk result (IsOver (types_of names.now) question.new) }
{
    match (first, second) {
        (Some(first), Some(second)) => {
            let made = joined_type(alloc, names, question, at, first, second)?;
            Ok(Some(made))
        }
        _ => Ok(None),
    }
}

// Slot by slot, as far as both lists go.
fn joined_slots(
    alloc: Global,
    names: &Names,
    question: &mut Question,
    at: u32,
    first: &[Option<Shared>],
    second: &[Option<Shared>],
) -> Result<Items<Option<Shared>>, FlowFault>
    requires recursion { RecurThroughParts (types_of names.now) }
    requires over { IsOver (types_of names.now) question.old }
    ensures value { Meets (join.JoinedSlots (types_of names.now) at [] (seen_slots first.now) (seen_slots second.now)) seen_slots result }
    ensures over { OnOk result (IsOver (types_of names.now) question.new) }
{
    let mut made = Items::new(alloc);
    for slot in first {
        match item_at(second, made.len()) {
            None => return Ok(made),
            Some(other) => {
                let next = joined_slot(alloc, names, question, at, slot, other)?;
                made.push(next)?;
            }
        }
    }
    Ok(made)
}

/// The types of the variables where two paths meet, for a node at `at`. A variable that has no type
/// on one of them has none there.
pub fn joined(
    alloc: Global,
    names: &Names,
    question: &mut Question,
    at: u32,
    first: Environment,
    second: Environment,
) -> Result<Environment, FlowFault>
    requires recursion { RecurThroughParts (types_of names.now) }
    requires over { IsOver (types_of names.now) question.old }
    ensures value { Meets (join.Joined (types_of names.now) at (seen_environment first) (seen_environment second)) seen_environment result }
    ensures over { OnOk result (IsOver (types_of names.now) question.new) }
{
    if !second.reached {
        return Ok(first);
    }
    if !first.reached {
        return Ok(second);
    }
    let types = joined_slots(
        alloc,
        names,
        question,
        at,
        first.types.as_slice(),
        second.types.as_slice(),
    )?;
    Ok(Environment {
        reached: true,
        types,
    })
}
