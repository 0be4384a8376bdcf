//! The conjuncts that have a value, and the ways of records that do.
ghost use Rattle.std.specs.Prelude.{◌≡◌, ℕ, IfOk, slice_get};
ghost use Rattle.wy_subtype.specs.Known.{WideOnly};
ghost use Rattle.wy_subtype.specs.Valued as valued;
ghost use Rattle.wy_subtype.specs.Valued.{AreThose, AreValued};
ghost use Rattle.wy_canon.specs.wy_types.Conjuncts as conjuncts;
ghost use Rattle.wy_canon.specs.wy_types.Ranked.{IsRanked};
ghost use Rattle.wy_canon.specs.wy_types.Reach.{IsWide};

use crate::asks::ways_from;
use crate::marks::part_marks;
use crate::reach::{Added, Reach, reach_of};
use crate::values::values;
use std::alloc::{AllocError, Global};
use wy_canon::{
    Atom, Conjunct, Part, Signed, Table, TypeFault, copy_conjunct, copy_fields, dnf_part,
};
use wy_data::Name;
use wy_graph::closure::{each_marked, mark_at};
use wy_items::{Items, at};

/// Conjuncts that have a value, and of the records among them the ways in which every field's part
/// has one, each way with all fields.
#[derive(Drop)]
pub struct Inhabited {
    pub conjuncts: Items<Conjunct<u32>>,
    pub ways: Items<Items<(Name, Part<u32>)>>,
}

// The conjunct with this number, where it is marked.
fn marked_at(
    alloc: Global,
    marks: &[bool],
    conjuncts: &[Conjunct<u32>],
    number: usize,
) -> Result<Items<Conjunct<u32>>, AllocError>
    ensures value { IfOk result (λ made. made ≡ valued.marked_at marks.now conjuncts.now number) }
{
    let mut one = Items::new(alloc);
    if !mark_at(marks, number) {
        return Ok(one);
    }
    match at(conjuncts, number) {
        None => Ok(one),
        Some(conjunct) => {
            one.push(copy_conjunct(alloc, conjunct)?)?;
            Ok(one)
        }
    }
}

// Those of the numbered conjuncts that are marked.
fn marked(
    alloc: Global,
    marks: &[bool],
    conjuncts: &[Conjunct<u32>],
    numbers: &[u32],
) -> Result<Items<Conjunct<u32>>, AllocError>
    ensures value { IfOk result (λ made. made ≡ valued.marked marks.now conjuncts.now numbers.now) }
{
    let mut made = Items::new(alloc);
    for number in numbers {
        made.append(marked_at(alloc, marks, conjuncts, *number as usize)?)?;
    }
    Ok(made)
}

// The ways of which all that they ask is held.
fn held_ways(
    alloc: Global,
    held: &[bool],
    ways: &[Items<(Name, Part<u32>)>],
    asks: &[Items<Items<u32>>],
) -> Result<Items<Items<(Name, Part<u32>)>>, AllocError>
    ensures value { IfOk result (λ made. made ≡ valued.held_ways held.now ways.now asks.now) }
{
    let mut made = Items::new(alloc);
    let mut rest = asks;
    for way in ways {
        match rest {
            [] => return Ok(made),
            [first, others @ ..] => {
                if each_marked(held, first.as_slice()) {
                    made.push(copy_fields(alloc, way.as_slice())?)?;
                }
                rest = others;
            }
        }
    }
    Ok(made)
}

// The held ways of a conjunct.
fn held_by(
    alloc: Global,
    table: &Table,
    depth: u32,
    held: &[bool],
    conjunct: &Conjunct<u32>,
    asks: &[Items<Items<u32>>],
) -> Result<Items<Items<(Name, Part<u32>)>>, AllocError>
    ensures value { IfOk result (λ made. made ≡ valued.held_by table.now depth held.now conjunct.now.positive conjunct.now.negatives asks.now) }
{
    match &conjunct.positive {
        Atom::Record(fields) => {
            let mut first = Items::new(alloc);
            first.push(copy_fields(alloc, fields.as_slice())?)?;
            let ways = ways_from(alloc, table, depth, first, conjunct.negatives.as_slice())?;
            held_ways(alloc, held, ways.as_slice(), asks)
        }
        _ => Ok(Items::new(alloc)),
    }
}

// The held ways of the conjunct with this number.
fn held_of(
    alloc: Global,
    table: &Table,
    depth: u32,
    held: &[bool],
    reach: &Reach,
    number: usize,
) -> Result<Items<Items<(Name, Part<u32>)>>, AllocError>
    ensures value { IfOk result (λ made. made ≡ valued.held_of table.now depth held.now (slice_get reach.now.conjuncts number) (slice_get reach.now.asks number)) }
{
    match reach.conjuncts.get(number) {
        None => Ok(Items::new(alloc)),
        Some(conjunct) => match reach.asks.get(number) {
            None => Ok(Items::new(alloc)),
            Some(asks) => held_by(alloc, table, depth, held, conjunct, asks.as_slice()),
        },
    }
}

// The same, where the conjunct is marked.
fn held_at(
    alloc: Global,
    table: &Table,
    depth: u32,
    marks: &[bool],
    held: &[bool],
    reach: &Reach,
    number: usize,
) -> Result<Items<Items<(Name, Part<u32>)>>, AllocError>
    ensures value { IfOk result (λ made. made ≡ valued.held_at table.now depth marks.now held.now reach.now.conjuncts reach.now.asks number) }
{
    if mark_at(marks, number) {
        return held_of(alloc, table, depth, held, reach, number);
    }
    Ok(Items::new(alloc))
}

// The held ways of those of the numbered conjuncts that are marked.
fn held_all(
    alloc: Global,
    table: &Table,
    depth: u32,
    marks: &[bool],
    held: &[bool],
    reach: &Reach,
    numbers: &[u32],
) -> Result<Items<Items<(Name, Part<u32>)>>, AllocError>
    ensures value { IfOk result (λ made. made ≡ valued.held_all table.now depth marks.now held.now reach.now.conjuncts reach.now.asks numbers.now) }
{
    let mut made = Items::new(alloc);
    for number in numbers {
        made.append(held_at(alloc, table, depth, marks, held, reach, *number as usize)?)?;
    }
    Ok(made)
}

/// The conjuncts of the part, where the question about it isn't wide; wide exactly where it is. The
/// cost is that of `has_value` without its marks.
#[tactic(auto, using(crate::proofs::NarrowLemmas::wide_at_once))]
pub fn narrow_conjuncts(
    alloc: Global,
    table: &Table,
    depth: u32,
    part: &[Signed<u32>],
) -> Result<Items<Conjunct<u32>>, TypeFault>
    ensures value { IfOk result (λ made. made ≡ conjuncts.dnf_part table.now depth part.now) }
    ensures wide { WideOnly result (IsWide table.now depth part.now) }
    ensures narrow { IfOk result (λ made. IsWide table.now depth part.now → ⊥) }
{
    let made = dnf_part(alloc, table, depth, part)?;
    let _added = reach_of(alloc, table, depth, part)?;
    Ok(made)
}

/// The conjuncts of the part that have a value, in order. Wide exactly where the question about the
/// part is. The cost is that of `has_value`.
pub fn valued_conjuncts(
    alloc: Global,
    table: &Table,
    depth: u32,
    part: &[Signed<u32>],
) -> Result<Items<Conjunct<u32>>, TypeFault>
    requires ranked { (rank : ℕ → ℕ) × IsRanked table.now rank depth }
    ensures valued { IfOk result (λ made. AreValued table.now depth (conjuncts.dnf_part table.now depth part.now) made) }
    ensures wide { WideOnly result (IsWide table.now depth part.now) }
    ensures narrow { IfOk result (λ made. IsWide table.now depth part.now → ⊥) }
{
    let Added { reach, number } = reach_of(alloc, table, depth, part)?;
    let marks = values(alloc, table, depth, part, &reach)?;
    let numbers = match reach.heads.get(number as usize) {
        None => return Ok(Items::new(alloc)),
        Some(numbers) => numbers,
    };
    let made = marked(
        alloc,
        marks.as_slice(),
        reach.conjuncts.as_slice(),
        numbers.as_slice(),
    )?;
    Ok(made)
}

/// The conjuncts of the part that have a value, and their ways in which every field's part has one,
/// in order. Wide exactly where the question about the part is. The cost is that of `has_value`, and
/// of the ways once more.
pub fn inhabited_parts(
    alloc: Global,
    table: &Table,
    depth: u32,
    part: &[Signed<u32>],
) -> Result<Inhabited, TypeFault>
    requires ranked { (rank : ℕ → ℕ) × IsRanked table.now rank depth }
    ensures those { IfOk result (λ made. AreThose table.now depth (conjuncts.dnf_part table.now depth part.now) made) }
    ensures wide { WideOnly result (IsWide table.now depth part.now) }
    ensures narrow { IfOk result (λ made. IsWide table.now depth part.now → ⊥) }
{
    let Added { reach, number } = reach_of(alloc, table, depth, part)?;
    let marks = values(alloc, table, depth, part, &reach)?;
    let held = part_marks(alloc, marks.as_slice(), reach.heads.as_slice())?;
    let numbers = match reach.heads.get(number as usize) {
        None => {
            return Ok(Inhabited {
                conjuncts: Items::new(alloc),
                ways: Items::new(alloc),
            });
        }
        Some(numbers) => numbers,
    };
    let conjuncts = marked(
        alloc,
        marks.as_slice(),
        reach.conjuncts.as_slice(),
        numbers.as_slice(),
    )?;
    let ways = held_all(
        alloc,
        table,
        depth,
        marks.as_slice(),
        held.as_slice(),
        &reach,
        numbers.as_slice(),
    )?;
    Ok(Inhabited { conjuncts, ways })
}
