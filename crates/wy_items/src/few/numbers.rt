//! Numbers in a row, and where each stands first.
ghost use Rattle.std.specs.Prelude.{◌≡◌, ◌<◌, ◌≤◌, ◌++◌, ◌∷◌, ◌==◌, ℕ, [], None, Some, if◌then◌else◌, nat_eq, length, IfOk, OnOk};
ghost use Rattle.std.specs.HashMap.{get};
ghost use Rattle.wy_items.specs.few.Places.{number_place, places_from, ArePlaced, PlacedBehind};

use std::alloc::AllocError;
use std::collections::HashMap;

// How many numbers are looked through.
const FEW: usize = 48;

/// A count as a place. A row of 2^32 numbers or more has none, which is answered as want of memory.
pub fn place_number(count: usize) -> Result<u32, AllocError>
    ensures { IfOk result (λ k. k ≡ count) }
{
    match u32::try_from(count) {
        Ok(k) => Ok(k),
        Err(_) => Err(AllocError),
    }
}

// Where a number stands first among few.
fn place_among_few(numbers: &[u32], k: u32) -> Option<u32>
    requires { length numbers.now ≤ 48 }
    ensures { result ≡ number_place numbers.now k 0 }
{
    let mut place = 0;
    for number in numbers {
        if *number == k {
            return Some(place);
        }
        place += 1;
    }
    None
}

/// Where a number stands first in a row, from 0. Few numbers are looked through, and of more the table tells it in constant time
/// on average.
pub fn place_among(numbers: &[u32], places: &HashMap<u32, u32>, k: u32) -> Option<u32>
    requires placed { ArePlaced numbers.now (get nat_eq places.now) }
    ensures { result ≡ number_place numbers.now k 0 }
{
    if numbers.len() <= FEW {
        return place_among_few(numbers, k);
    }
    places.get(&k).copied()
}

// The place that a number had before.
fn put_back(places: &mut HashMap<u32, u32>, k: u32, first: u32) -> Result<(), AllocError>
    ensures { OnOk result ((t : ℕ) → get nat_eq places.new t ≡ (if k == t then Some first else get nat_eq places.old t)) }
{
    places.insert(k, first)?;
    Ok(())
}

// Notes the place of a number, unless it has one: of those that are met once each, as in a set, all are new.
fn note_place(places: &mut HashMap<u32, u32>, k: u32, place: u32) -> Result<(), AllocError>
    ensures { OnOk result (PlacedBehind (get nat_eq places.old) (get nat_eq places.new) k place) }
{
    match places.insert(k, place)? {
        Some(first) => put_back(places, k, first),
        None => Ok(()),
    }
}

// Notes the places of all numbers, where none is noted.
fn note_all(places: &mut HashMap<u32, u32>, numbers: &[u32]) -> Result<(), AllocError>
    requires none { (t : ℕ) → get nat_eq places.old t ≡ None }
    ensures { OnOk result ((t : ℕ) → get nat_eq places.new t ≡ number_place numbers.now t 0) }
{
    for i in 0..numbers.len() {
        let place = place_number(i)?;
        note_place(places, numbers[i], place)?;
    }
    Ok(())
}

// Notes the places of all numbers, where they are as many as are looked through: with one more they will be in the table.
fn note_few(places: &mut HashMap<u32, u32>, numbers: &[u32]) -> Result<(), AllocError>
    requires placed { ArePlaced numbers.now (get nat_eq places.old) }
    ensures { OnOk result ((t : ℕ) → get nat_eq places.new t ≡ places_from 48 numbers.now t) }
{
    if numbers.len() == FEW {
        return note_all(places, numbers);
    }
    Ok(())
}

/// A number more in a row, in amortized constant time on average. A row that has 2^32 numbers already takes no more: that is answered
/// as want of memory. After want of memory of either kind the row and its table aren't to be used again.
pub fn push_number(
    numbers: &mut Vec<u32>,
    places: &mut HashMap<u32, u32>,
    k: u32,
) -> Result<(), AllocError>
    requires placed { ArePlaced numbers.old.items (get nat_eq places.old) }
    ensures value { OnOk result (numbers.new.items ≡ numbers.old.items ++ k ∷ []) }
    ensures placed { OnOk result (ArePlaced numbers.new.items (get nat_eq places.new)) }
{
    let count = numbers.len();
    note_few(places, numbers)?;
    numbers.push(k)?;
    if count < FEW {
        return Ok(());
    }
    let place = place_number(count)?;
    note_place(places, k, place)
}
