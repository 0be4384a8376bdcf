//! A variable goes.
ghost use Rattle.std.specs.Prelude.{◌≡◌, IfOk};
ghost use Rattle.wy_lin_eliminate.specs.Elimination as elimination;
ghost use Rattle.wy_lin_eliminate.specs.Seen.{seen_sum, seen_table, seen_turn};

use crate::sides::{Sides, by_sign};
use crate::sums::{Summed, sum_of_pair};
use crate::table::{Outcome, Table, is_crowded, refuted_by, with_cut};
use std::alloc::Global;
use wy_lin::NoMemory;

// What a sum gives.
fn after_sum(table: Table, sum: Summed) -> Result<Outcome, NoMemory>
    ensures value { IfOk result (λ o. seen_turn o ≡ elimination.after_sum (seen_table table) (seen_sum sum)) }
{
    match sum {
        Summed::Refuting(ms) => refuted_by(table, ms),
        Summed::Dropped => Ok(Outcome::GoesOn(table)),
        Summed::Beyond => {
            let mut table = table;
            table.wide = true;
            Ok(Outcome::GoesOn(table))
        }
        Summed::Cut(d, ms, form) => {
            if is_crowded(&table) {
                Ok(Outcome::GoesOn(table))
            } else {
                Ok(Outcome::GoesOn(with_cut(table, d, ms, form)?))
            }
        }
    }
}

// A lower form with each of the upper forms.
fn over_uppers(
    alloc: Global,
    v: u32,
    l: u32,
    table: Table,
    uppers: &[u32],
) -> Result<Outcome, NoMemory>
    ensures value { IfOk result (λ o. seen_turn o ≡ elimination.over_uppers v l (seen_table table) uppers.now) }
{
    let mut table = table;
    for u in uppers {
        let sum = sum_of_pair(alloc, table.all.as_slice(), v, l, *u)?;
        match after_sum(table, sum)? {
            Outcome::GoesOn(next) => table = next,
            Outcome::Refuted(steps) => return Ok(Outcome::Refuted(steps)),
        }
    }
    Ok(Outcome::GoesOn(table))
}

// Each of the lower forms with each of the upper forms.
fn over_lowers(
    alloc: Global,
    v: u32,
    uppers: &[u32],
    table: Table,
    lowers: &[u32],
) -> Result<Outcome, NoMemory>
    ensures value { IfOk result (λ o. seen_turn o ≡ elimination.over_lowers v uppers.now (seen_table table) lowers.now) }
{
    let mut table = table;
    for l in lowers {
        match over_uppers(alloc, v, *l, table, uppers)? {
            Outcome::GoesOn(next) => table = next,
            Outcome::Refuted(steps) => return Ok(Outcome::Refuted(steps)),
        }
    }
    Ok(Outcome::GoesOn(table))
}

// The forms without the variable, and then the sums.
fn over_sides(alloc: Global, v: u32, table: Table, parted: Sides) -> Result<Outcome, NoMemory>
    ensures value { IfOk result (λ o. seen_turn o ≡ elimination.over_sides v (seen_table table) parted) }
{
    let mut table = table;
    table.standing = parted.without;
    over_lowers(
        alloc,
        v,
        parted.upper.as_slice(),
        table,
        parted.lower.as_slice(),
    )
}

/// The variable goes: the forms without it stand, and then the sums of each lower and each upper form.
pub fn turned(alloc: Global, v: u32, table: Table) -> Result<Outcome, NoMemory>
    ensures value { IfOk result (λ o. seen_turn o ≡ elimination.turned v (seen_table table)) }
{
    let parted = by_sign(alloc, table.all.as_slice(), v, table.standing.as_slice())?;
    over_sides(alloc, v, table, parted)
}
