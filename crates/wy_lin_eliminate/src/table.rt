//! The forms that stand, and the steps that gave them.
ghost use Rattle.std.specs.Prelude.{◌≡◌, ◌≤◌, ◌<◌, length, map, slice_index, IfOk};
ghost use Rattle.wy_lin.specs.Combination.{form_at};
ghost use Rattle.wy_lin.specs.Seen.{linear_form};
ghost use Rattle.wy_lin_eliminate.specs.Elimination as elimination;
ghost use Rattle.wy_lin_eliminate.specs.Seen.{seen_table, seen_turn};

use crate::comparing::agree;
use crate::places::{constant_at, parts_at};
use crate::steps::LinStep;
use std::alloc::Global;
use wy_items::{Items, at};
use wy_lin::{Form, NoMemory};

/// The given forms and those of the cuts, the places of those that stand, the cuts, and whether a number left 128 bits.
#[derive(Drop)]
pub struct Table {
    pub all: Vec<Form>,
    pub standing: Items<u32>,
    pub steps: Items<LinStep>,
    pub wide: bool,
}

/// A table, or the steps that refute its forms.
#[derive(Drop)]
pub enum Outcome {
    GoesOn(Table),
    Refuted(Items<LinStep>),
}

/// Whether more forms stand than may.
pub fn is_crowded(table: &Table) -> bool
    ensures value { result ≡ elimination.is_crowded (seen_table table.now) }
{
    4096 < table.standing.len()
}

// Where a form with these coefficients stands.
fn equal_place(all: &[Form], parts: &[(i128, u32)], standing: &[u32]) -> Option<usize>
    ensures value { result ≡ elimination.equal_from (map linear_form all.now) parts.now standing.now 0 }
{
    for (k, i) in standing.iter().enumerate() {
        if agree(parts, parts_at(all, *i)) {
            return Some(k);
        }
    }
    None
}

// The place at an index, 0 from the end on.
fn place_at(standing: &[u32], k: usize) -> u32
    ensures value { result ≡ slice_index standing.now k }
{
    match at(standing, k) {
        Some(i) => *i,
        None => 0,
    }
}

// Whether a form comes to stand where one with the same coefficients stands there, if one does.
fn is_less(all: &[Form], standing: &[u32], constant: i128, equal: Option<usize>) -> bool
    ensures value { result ≡ elimination.is_less (map linear_form all.now) standing.now constant equal }
{
    match equal {
        None => true,
        Some(k) => constant < constant_at(all, place_at(standing, k)),
    }
}

// Takes the place at an index out, if there is one.
fn removed_at(standing: Items<u32>, equal: Option<usize>) -> Items<u32>
    ensures value { result ≡ elimination.removed_at standing equal }
{
    let mut rest = standing;
    match equal {
        None => rest,
        Some(k) => {
            if k >= rest.len() {
                return rest;
            }
            rest.remove(k);
            rest
        }
    }
}

/// A place as a step names it. A list that has more than 2^32 forms is too long.
pub fn place_of(index: usize) -> Result<u32, NoMemory>
    ensures value { IfOk result (λ i. i ≡ index) }
{
    match u32::try_from(index) {
        Ok(i) => Ok(i),
        Err(_) => Err(NoMemory),
    }
}

/// The form at a place comes to stand.
pub fn with_place(table: Table, i: u32) -> Result<Table, NoMemory>
    ensures value { IfOk result (λ t. seen_table t ≡ elimination.with_place (seen_table table) i (form_at (map linear_form table.all.items) i)) }
{
    let Table {
        all,
        standing,
        steps,
        wide,
    } = table;
    let equal = equal_place(
        all.as_slice(),
        parts_at(all.as_slice(), i),
        standing.as_slice(),
    );
    if !is_less(
        all.as_slice(),
        standing.as_slice(),
        constant_at(all.as_slice(), i),
        equal,
    ) {
        return Ok(Table {
            all,
            standing,
            steps,
            wide,
        });
    }
    let mut standing = removed_at(standing, equal);
    standing.push(i)?;
    Ok(Table {
        all,
        standing,
        steps,
        wide,
    })
}

/// A form that a cut gives comes to stand, at a place of its own.
pub fn with_cut(
    table: Table,
    d: u128,
    multipliers: Items<(u128, u32)>,
    form: Form,
) -> Result<Table, NoMemory>
    ensures value { IfOk result (λ t. seen_table t ≡ elimination.with_cut (seen_table table) d multipliers (linear_form form)) }
{
    let Table {
        mut all,
        standing,
        mut steps,
        wide,
    } = table;
    let equal = equal_place(all.as_slice(), form.parts.as_slice(), standing.as_slice());
    if !is_less(all.as_slice(), standing.as_slice(), form.constant, equal) {
        return Ok(Table {
            all,
            standing,
            steps,
            wide,
        });
    }
    let place = place_of(all.len())?;
    let mut standing = removed_at(standing, equal);
    standing.push(place)?;
    all.push(form)?;
    steps.push(LinStep::Cut(d, multipliers))?;
    Ok(Table {
        all,
        standing,
        steps,
        wide,
    })
}

/// The steps so far, and a sum that refutes.
pub fn refuted_by(table: Table, multipliers: Items<(u128, u32)>) -> Result<Outcome, NoMemory>
    ensures value { IfOk result (λ o. seen_turn o ≡ elimination.refuted_by (seen_table table) multipliers) }
{
    let mut steps = table.steps;
    steps.push(LinStep::Sum(multipliers))?;
    Ok(Outcome::Refuted(steps))
}
