//! Values with brackets. Nesting is bounded by a count, and so is the depth of the recursion.
ghost use Rattle.std.specs.Prelude.{◌≡◌, true};
ghost use Rattle.wy_reading.specs.Reader.{Reads};
ghost use Rattle.wy_value.specs.Reading as spec;

use crate::character::Character;
use crate::fault::Kind;
use crate::fields::FieldMap;
use crate::flat::{flat, mark, new_name, spaces};
use crate::value::Value;
use std::alloc::Global;
use wy_reading::{Items, Stop, next_is, one};

/// A value with brackets nested at most `depth` deep.
#[cycle(nested)]
#[tactic(auto, using(crate::proofs::Levels::levels), unfolding(crate::specs::Reading::value_in))]
fn value(alloc: Global, text: &[char], depth: usize) -> Result<(Value, &[char]), Stop<Kind>>
    ensures { Reads (spec.value_in depth true text.now) result }
{
    if !next_is(text, Character::Open) {
        return flat(text);
    }
    if depth == 0 {
        return Err(Stop::Fault(Kind::Deep, text.len()));
    }
    bracketed(alloc, text, depth - 1)
}

#[cycle(nested)]
#[tactic(auto, unfolding(crate::specs::Reading::bracketed))]
fn bracketed(alloc: Global, text: &[char], depth: usize) -> Result<(Value, &[char]), Stop<Kind>>
    ensures { Reads (spec.bracketed true (spec.value_in depth true) text.now) result }
{
    if next_is(text, Character::Is('[')) {
        let (_, rest) = mark(text, '[')?;
        let (items, rest) = elems(alloc, rest, depth)?;
        let (_, rest) = one(rest, Character::Is(']'))?;
        return Ok((Value::Array(items), rest));
    }
    let (_, rest) = mark(text, '{')?;
    let (fields, rest) = fields(alloc, rest, depth)?;
    let (_, rest) = one(rest, Character::Is('}'))?;
    Ok((Value::Record(fields.into_items(alloc)?), rest))
}

// A value and the spaces behind it.
#[cycle(nested)]
#[tactic(auto, unfolding(crate::specs::Reading::elem))]
fn elem(alloc: Global, text: &[char], depth: usize) -> Result<(Value, &[char]), Stop<Kind>>
    ensures { Reads (spec.elem true (spec.value_in depth true) text.now) result }
{
    let (value, rest) = value(alloc, text, depth)?;
    let (_, rest) = spaces(rest)?;
    Ok((value, rest))
}

/// Any number of values, with commas between them.
#[cycle(nested)]
#[tactic(auto, using(wy_reading::proofs::Turns::reader_steps), unfolding(crate::specs::Reading::elems))]
pub fn elems(
    alloc: Global,
    text: &[char],
    depth: usize,
) -> Result<(Items<Value>, &[char]), Stop<Kind>>
    ensures { Reads (spec.elems true (spec.value_in depth true) text.now) result }
{
    let mut all = Items::new(alloc);
    if !next_is(text, Character::Value) {
        return Ok((all, text));
    }
    let (first, mut rest) = elem(alloc, text, depth)?;
    all.push(first)?;
    for _turn in 0..rest.len() {
        if !next_is(rest, Character::Is(',')) {
            return Ok((all, rest));
        }
        let (more, after) = next(alloc, all, rest, depth)?;
        all = more;
        rest = after;
    }
    Ok((all, rest))
}

// A comma and a value.
#[cycle(nested)]
fn next<'a>(
    alloc: Global,
    mut all: Items<Value>,
    text: &'a [char],
    depth: usize,
) -> Result<(Items<Value>, &'a [char]), Stop<Kind>>
    ensures { Reads (spec.next true (spec.value_in depth true) all text.now) result }
{
    let (_, rest) = mark(text, ',')?;
    let (value, rest) = elem(alloc, rest, depth)?;
    all.push(value)?;
    Ok((all, rest))
}

#[cycle(nested)]
#[tactic(auto, using(wy_reading::proofs::Turns::reader_steps), unfolding(crate::specs::Reading::fields))]
fn fields(alloc: Global, text: &[char], depth: usize) -> Result<(FieldMap, &[char]), Stop<Kind>>
    ensures { Reads (spec.fields true (spec.value_in depth true) text.now) result }
{
    if !next_is(text, Character::Start) {
        return Ok((FieldMap::new(alloc), text));
    }
    let (mut all, mut rest) = field(alloc, FieldMap::new(alloc), text, depth)?;
    for _turn in 0..rest.len() {
        if !next_is(rest, Character::Is(',')) {
            return Ok((all, rest));
        }
        let (more, after) = next_field(alloc, all, rest, depth)?;
        all = more;
        rest = after;
    }
    Ok((all, rest))
}

// A name, a colon and a value.
#[cycle(nested)]
#[tactic(auto, unfolding(crate::specs::Reading::field))]
fn field<'a>(
    alloc: Global,
    all: FieldMap,
    text: &'a [char],
    depth: usize,
) -> Result<(FieldMap, &'a [char]), Stop<Kind>>
    ensures { Reads (spec.field true (spec.value_in depth true) all text.now) result }
{
    let (name, rest) = new_name(alloc, text, &all)?;
    let (_, rest) = spaces(rest)?;
    let (_, rest) = mark(rest, ':')?;
    let (value, rest) = elem(alloc, rest, depth)?;
    Ok((all.with(name, value)?, rest))
}

// A comma and a field.
#[cycle(nested)]
fn next_field<'a>(
    alloc: Global,
    all: FieldMap,
    text: &'a [char],
    depth: usize,
) -> Result<(FieldMap, &'a [char]), Stop<Kind>>
    ensures { Reads (spec.next_field true (spec.value_in depth true) all text.now) result }
{
    let (_, rest) = mark(text, ',')?;
    field(alloc, all, rest, depth)
}
