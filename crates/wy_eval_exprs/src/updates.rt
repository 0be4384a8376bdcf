//! A value put into the place of a part.
ghost use Rattle.std.specs.Prelude.{◌≡◌, IfOk, map};
ghost use Rattle.wy_value.specs.Seen.{seen};
ghost use Rattle.wy_sem.specs.Operations as spec;
ghost use Rattle.wy_eval_exprs.specs.Operands.{items_of, parts_of};
ghost use Rattle.wy_eval_exprs.specs.Parts.{seen_slot};

use crate::parts::place_of;
use std::alloc::{AllocError, Global};
use wy_data::Name;
use wy_items::Items;
use wy_value::Value;

/// A part of a value: an item of an array by its number, or the field of a record by its name.
#[derive(Drop)]
pub enum Slot {
    Item(usize),
    Field(Name),
}

/// The value with this at the end of that path, changed in place; the parts on the way are copied. It
/// goes as deep as the path is long.
#[cycle(updated)]
pub fn updated(
    alloc: Global,
    whole: Value,
    slots: &[Slot],
    value: Value,
) -> Result<Value, AllocError>
    ensures value { IfOk result (λ made. seen made ≡ spec.updated (seen whole) (map seen_slot slots.now) (seen value)) }
{
    match slots {
        [] => Ok(value),
        [Slot::Item(index), rest @ ..] => with_item(alloc, whole, *index, rest, value),
        [Slot::Field(name), rest @ ..] => with_field(alloc, whole, name, rest, value),
    }
}

#[cycle(updated)]
fn with_item(
    alloc: Global,
    whole: Value,
    index: usize,
    rest: &[Slot],
    value: Value,
) -> Result<Value, AllocError>
    ensures value { IfOk result (λ made. seen made ≡ spec.with_part (spec.ItemSlot index) (seen whole) (spec.updated (spec.part_at (spec.ItemSlot index) (seen whole)) (map seen_slot rest.now) (seen value))) }
{
    match whole {
        Value::Array(items) => {
            let made = in_items(alloc, items, index, rest, value)?;
            Ok(Value::Array(made))
        }
        Value::Null => Ok(Value::Null),
        Value::Bool(truth) => Ok(Value::Bool(truth)),
        Value::Int(number) => Ok(Value::Int(number)),
        Value::Record(fields) => Ok(Value::Record(fields)),
    }
}

#[cycle(updated)]
#[tactic(auto, using(crate::proofs::PartLemmas::items_put, crate::proofs::PartLemmas::item_put_beyond, crate::proofs::PartLemmas::item_there))]
fn in_items(
    alloc: Global,
    mut items: Items<Value>,
    index: usize,
    rest: &[Slot],
    value: Value,
) -> Result<Items<Value>, AllocError>
    ensures value { IfOk result (λ made. items_of made ≡ spec.set_item (items_of items) index (spec.updated (spec.item_at (items_of items) index) (map seen_slot rest.now) (seen value))) }
{
    if index >= items.len() {
        return Ok(items);
    }
    let part = items.as_slice()[index].copy(alloc)?;
    let made = updated(alloc, part, rest, value)?;
    items.set(index, made);
    Ok(items)
}

#[cycle(updated)]
fn with_field(
    alloc: Global,
    whole: Value,
    name: &Name,
    rest: &[Slot],
    value: Value,
) -> Result<Value, AllocError>
    ensures value { IfOk result (λ made. seen made ≡ spec.with_part (spec.FieldSlot name.now) (seen whole) (spec.updated (spec.part_at (spec.FieldSlot name.now) (seen whole)) (map seen_slot rest.now) (seen value))) }
{
    match whole {
        Value::Record(fields) => {
            let made = in_fields(alloc, fields, name, rest, value)?;
            Ok(Value::Record(made))
        }
        Value::Null => Ok(Value::Null),
        Value::Bool(truth) => Ok(Value::Bool(truth)),
        Value::Int(number) => Ok(Value::Int(number)),
        Value::Array(items) => Ok(Value::Array(items)),
    }
}

#[cycle(updated)]
#[tactic(auto, using(crate::proofs::PartLemmas::field_put, crate::proofs::PartLemmas::field_put_nowhere, crate::proofs::PartLemmas::found_at))]
fn in_fields(
    alloc: Global,
    mut fields: Items<(Name, Value)>,
    name: &Name,
    rest: &[Slot],
    value: Value,
) -> Result<Items<(Name, Value)>, AllocError>
    ensures value { IfOk result (λ made. parts_of made ≡ spec.set_field (parts_of fields) name.now (spec.updated (spec.or_null (spec.find (parts_of fields) name.now)) (map seen_slot rest.now) (seen value))) }
{
    match place_of(fields.as_slice(), name) {
        None => Ok(fields),
        Some(place) => {
            let field = &fields.as_slice()[place];
            let same = field.0.copy(alloc)?;
            let part = field.1.copy(alloc)?;
            let made = updated(alloc, part, rest, value)?;
            fields.set(place, (same, made));
            Ok(fields)
        }
    }
}
