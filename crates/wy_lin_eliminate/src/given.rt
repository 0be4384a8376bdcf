//! The given forms come to stand.
ghost use Rattle.std.specs.Prelude.{◌≡◌, ◌<◌, [], ◌∷◌, map, IfOk};
ghost use Rattle.wy_lin.specs.Combination.{form_at};
ghost use Rattle.wy_lin.specs.Seen.{linear_form};
ghost use Rattle.wy_lin_eliminate.specs.Division.{lowered};
ghost use Rattle.wy_lin_eliminate.specs.Elimination as elimination;
ghost use Rattle.wy_lin_eliminate.specs.Seen.{seen_table, seen_turn};

use crate::division::{common, lowered};
use crate::places::{constant_at, form_at, parts_at};
use crate::table::{Outcome, Table, is_crowded, place_of, refuted_by, with_cut, with_place};
use std::alloc::Global;
use wy_items::Items;
use wy_lin::{Form, NoMemory};

/// The table of the given forms, none of which stands yet.
pub fn at_first(alloc: Global, forms: Vec<Form>) -> Table
    ensures value { seen_table result ≡ elimination.at_first (map linear_form forms.items) }
{
    Table {
        all: forms,
        standing: Items::new(alloc),
        steps: Items::new(alloc),
        wide: false,
    }
}

// Once the form at a place.
fn once(alloc: Global, i: u32) -> Result<Items<(u128, u32)>, NoMemory>
    ensures value { IfOk result (λ ms. ms ≡ (1, i) ∷ []) }
{
    let mut made = Items::new(alloc);
    made.push((1, i))?;
    Ok(made)
}

// The form at a place, divided, comes to stand.
fn with_lowered(alloc: Global, table: Table, i: u32, d: u128) -> Result<Table, NoMemory>
    requires { 0 < d }
    ensures value { IfOk result (λ t. seen_table t ≡ elimination.with_cut (seen_table table) d ((1, i) ∷ []) (lowered d (form_at (map linear_form table.all.items) i))) }
{
    let Some(form) = form_at(table.all.as_slice(), i) else {
        return Err(NoMemory);
    };
    let made = lowered(alloc, d, form)?;
    with_cut(table, d, once(alloc, i)?, made)
}

// The given form at a place, by the greatest common divisor of its coefficients.
fn given_by(alloc: Global, table: Table, i: u32, d: u128) -> Result<Outcome, NoMemory>
    ensures value { IfOk result (λ o. seen_turn o ≡ elimination.given_by (seen_table table) i (form_at (map linear_form table.all.items) i) d) }
{
    if d == 0 {
        if constant_at(table.all.as_slice(), i) < 0 {
            return refuted_by(table, once(alloc, i)?);
        }
        return Ok(Outcome::GoesOn(table));
    }
    if is_crowded(&table) {
        return Ok(Outcome::GoesOn(table));
    }
    if d == 1 {
        return Ok(Outcome::GoesOn(with_place(table, i)?));
    }
    Ok(Outcome::GoesOn(with_lowered(alloc, table, i, d)?))
}

// The given form at a place.
fn given_at(alloc: Global, table: Table, i: u32) -> Result<Outcome, NoMemory>
    ensures value { IfOk result (λ o. seen_turn o ≡ elimination.given (seen_table table) i (form_at (map linear_form table.all.items) i)) }
{
    let d = common(parts_at(table.all.as_slice(), i));
    given_by(alloc, table, i, d)
}

/// The given forms one after the other. Those of cuts stand behind them.
pub fn given(alloc: Global, table: Table) -> Result<Outcome, NoMemory>
    ensures value { IfOk result (λ o. seen_turn o ≡ elimination.given_from (seen_table table) 0 (map linear_form table.all.items)) }
{
    let count = table.all.len();
    let mut table = table;
    for i in 0..count {
        let place = place_of(i)?;
        match given_at(alloc, table, place)? {
            Outcome::GoesOn(next) => table = next,
            Outcome::Refuted(steps) => return Ok(Outcome::Refuted(steps)),
        }
    }
    Ok(Outcome::GoesOn(table))
}
