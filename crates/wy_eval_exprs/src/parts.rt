//! Items of arrays and fields of records.
ghost use Rattle.std.specs.Prelude.{◌≡◌, ◌<◌, IfOk, MatchOption, ⊤, length};
ghost use Rattle.wy_value.specs.Seen.{seen};
ghost use Rattle.wy_sem.specs.Meter as sem;
ghost use Rattle.wy_sem.specs.Operations as spec;
ghost use Rattle.wy_eval_exprs.specs.Operands.{items_of, parts_of};
ghost use Rattle.wy_eval_exprs.specs.Outcomes.{Gives};
ghost use Rattle.wy_eval_exprs.specs.Parts.{IndexOf, LengthIn, NumberIn, place_in};

use crate::operands::{as_fields, as_items, as_number};
use crate::stop::Stop;
use std::alloc::{AllocError, Global};
use wy_data::Name;
use wy_items::Items;
use wy_term::CondKind;
use wy_value::Value;

/// The greatest length of an array.
pub const LONGEST: i128 = 9223372036854775807;

/// The number of an item of an array, which the index must be: else it is a fault of kind index.
pub fn index_of(at: u32, array: &Value, index: &Value) -> Result<usize, Stop>
    ensures value { IndexOf at (seen array.now) (seen index.now) result }
{
    let items = as_items(at, array)?;
    let number = as_number(at, index)?;
    number_in(at, number, items.len())
}

// The number, which must be one from 0 to before the count.
fn number_in(at: u32, number: i128, count: usize) -> Result<usize, Stop>
    ensures value { NumberIn at number count result }
{
    if number < 0 {
        return Err(Stop::Fault(CondKind::Index, at));
    }
    if number >= count as i128 {
        return Err(Stop::Fault(CondKind::Index, at));
    }
    Ok(number as usize)
}

/// The item of an array at an index, copied.
pub fn item_of(alloc: Global, at: u32, array: &Value, index: &Value) -> Result<Value, Stop>
    ensures value { (m : sem.Meter) → Gives seen (spec.item_of at (seen array.now) (seen index.now) m) result m }
{
    let place = index_of(at, array, index)?;
    Ok(item_at(alloc, array, place)?)
}

/// The item with a number, from 0, copied; null where the array has none.
pub fn item_at(alloc: Global, array: &Value, place: usize) -> Result<Value, AllocError>
    ensures value { IfOk result (λ item. seen item ≡ spec.part_at (spec.ItemSlot place) (seen array.now)) }
{
    match array {
        Value::Array(items) => item_in(alloc, items.as_slice(), place),
        Value::Null => Ok(Value::Null),
        Value::Bool(_) => Ok(Value::Null),
        Value::Int(_) => Ok(Value::Null),
        Value::Record(_) => Ok(Value::Null),
    }
}

// The item with a number, from 0, copied; null where there is none.
#[tactic(auto, using(crate::proofs::PartLemmas::item_there, crate::proofs::PartLemmas::no_item_there))]
fn item_in(alloc: Global, items: &[Value], place: usize) -> Result<Value, AllocError>
    ensures value { IfOk result (λ item. seen item ≡ spec.item_at (items_of items.now) place) }
{
    if place >= items.len() {
        return Ok(Value::Null);
    }
    let copy = items[place].copy(alloc)?;
    Ok(copy)
}

/// The place of the first field with this name.
pub fn place_of(fields: &[(Name, Value)], name: &Name) -> Option<usize>
    ensures value { result ≡ place_in (parts_of fields.now) name.now }
    ensures within { MatchOption result ⊤ (λ i. i < length fields.now) }
{
    for i in 0..fields.len() {
        if fields[i].0.is(name) {
            return Some(i);
        }
    }
    None
}

/// The value of a record's field, copied.
#[tactic(auto, using(crate::proofs::PartLemmas::found_at, crate::proofs::PartLemmas::found_nowhere))]
pub fn field_of(alloc: Global, at: u32, whole: &Value, name: &Name) -> Result<Value, Stop>
    ensures value { (m : sem.Meter) → Gives seen (spec.field_of at (seen whole.now) name.now m) result m }
{
    let fields = as_fields(at, whole)?;
    match place_of(fields, name) {
        Some(place) => {
            let part = &fields[place].1;
            Ok(part.copy(alloc)?)
        }
        None => Err(Stop::Fault(CondKind::Member, at)),
    }
}

/// An array of copies. Memory for all of them is asked for at once.
pub fn repeated(alloc: Global, at: u32, item: &Value, count: &Value) -> Result<Value, Stop>
    ensures value { (m : sem.Meter) → Gives seen (spec.repeated at (seen item.now) (seen count.now) m) result m }
{
    let number = as_number(at, count)?;
    let times = length_in(at, number)?;
    let items = copies(alloc, times, item)?;
    Ok(Value::Array(items))
}

// The number, which must be the length of an array.
fn length_in(at: u32, number: i128) -> Result<usize, Stop>
    ensures value { LengthIn at number result }
{
    if number < 0 {
        return Err(Stop::Fault(CondKind::Length, at));
    }
    if number > LONGEST {
        return Err(Stop::Fault(CondKind::Length, at));
    }
    Ok(number as usize)
}

// This many times the same.
fn copies(alloc: Global, count: usize, item: &Value) -> Result<Items<Value>, AllocError>
    ensures value { IfOk result (λ made. items_of made ≡ spec.copies count (seen item.now)) }
{
    let mut made = Vec::with_capacity(alloc, count)?;
    for _turn in 0..count {
        made.push(item.copy(alloc)?)?;
    }
    Ok(Items::from_vec(made))
}
