//! Which variable goes first.
ghost use Rattle.std.specs.Prelude.{◌≡◌, ◌<◌, length, map, slice_index_or, IfOk, OnOk};
ghost use Rattle.indexmap.specs.IndexMap.{index_map_len};
ghost use Rattle.wy_lin.specs.Seen.{linear_form};
ghost use Rattle.wy_lin_eliminate.specs.Variables as variables;
ghost use Rattle.wy_lin_eliminate.specs.Seen.{entries_of};

use crate::few::{few_variables, one_more};
use crate::places::parts_at;
use indexmap::IndexMap;
use smallvec::SmallVec;
use std::alloc::Global;
use wy_lin::{Form, NoMemory};

/// The variables of forms, by first appearance, each with its number of lower and of upper forms.
#[derive(Drop)]
pub enum Tally {
    /// Few, which are looked through.
    Few(SmallVec<(u32, (u32, u32)), 20, Global>),
    /// In a table.
    Many(IndexMap<u32, (u32, u32)>),
}

// The counts of a variable.
fn counts(found: &IndexMap<u32, (u32, u32)>, v: u32) -> (u32, u32)
    ensures value { result ≡ variables.counts_of found.now.entries v }
{
    match found.get(&v) {
        Some(n) => *n,
        None => (0, 0),
    }
}

// One part more.
fn count(found: &mut IndexMap<u32, (u32, u32)>, part: (i128, u32)) -> Result<(), NoMemory>
    ensures value { OnOk result (found.new.entries ≡ variables.counted found.old.entries part) }
{
    if part.0 == 0 {
        return Ok(());
    }
    let n = one_more(part.0, counts(found, part.1))?;
    found.insert(part.1, n)?;
    Ok(())
}

// The parts of a form more.
fn count_parts(found: &mut IndexMap<u32, (u32, u32)>, parts: &[(i128, u32)]) -> Result<(), NoMemory>
    ensures value { OnOk result (found.new.entries ≡ variables.counted_parts found.old.entries parts.now) }
{
    for part in parts {
        count(found, *part)?;
    }
    Ok(())
}

// The variables of the forms at these places, in a table, in time linear in the parts of the forms.
fn many_variables(
    alloc: Global,
    all: &[Form],
    places: &[u32],
) -> Result<IndexMap<u32, (u32, u32)>, NoMemory>
    ensures value { IfOk result (λ found. found.entries ≡ variables.variables (map linear_form all.now) places.now) }
{
    let mut found = IndexMap::new(alloc);
    for i in places {
        count_parts(&mut found, parts_at(all, *i))?;
    }
    Ok(found)
}

/// The variables of the forms at these places, by first appearance, each with its number of lower and of upper forms, in
/// time linear in the parts of the forms: up to some 20 variables are looked through for each part, and more stand in a table.
pub fn variables(alloc: Global, all: &[Form], places: &[u32]) -> Result<Tally, NoMemory>
    ensures value { IfOk result (λ found. entries_of found ≡ variables.variables (map linear_form all.now) places.now) }
{
    match few_variables(alloc, all, places)? {
        Some(few) => Ok(Tally::Few(few)),
        None => Ok(Tally::Many(many_variables(alloc, all, places)?)),
    }
}

/// How many variables there are.
pub fn number(found: &Tally) -> usize
    ensures value { result ≡ length (entries_of found.now) }
{
    match found {
        Tally::Few(few) => few.len(),
        Tally::Many(many) => many.len(),
    }
}

// The one with fewer pairs of a lower and an upper form, the first of equals.
fn better(best: Option<(u32, u64)>, entry: (u32, (u32, u32))) -> Option<(u32, u64)>
    ensures value { result ≡ variables.better best entry }
{
    let n = entry.1;
    let pairs = u64::from(n.0) * u64::from(n.1);
    match best {
        None => Some((entry.0, pairs)),
        Some(b) => {
            if pairs < b.1 {
                Some((entry.0, pairs))
            } else {
                Some(b)
            }
        }
    }
}

// A variable and its counts, by first appearance.
#[tactic(auto, using(crate::proofs::TallyLemmas::entry_there))]
fn entry_at(found: &IndexMap<u32, (u32, u32)>, i: usize) -> (u32, (u32, u32))
    requires { i < index_map_len found.now }
    ensures value { result ≡ slice_index_or found.now.entries i result }
{
    match found.get_index(i) {
        Some((v, n)) => (*v, *n),
        None => (0, (0, 0)),
    }
}

// The best of few.
fn best_of_few(entries: &[(u32, (u32, u32))]) -> Option<(u32, u64)>
    ensures value { result ≡ variables.next_variable entries.now }
{
    let mut best = None;
    for entry in entries {
        best = better(best, *entry);
    }
    best
}

// The best of a table.
fn best_of_many(found: &IndexMap<u32, (u32, u32)>) -> Option<(u32, u64)>
    ensures value { result ≡ variables.next_variable found.now.entries }
{
    let mut best = None;
    for i in 0..found.len() {
        best = better(best, entry_at(found, i));
    }
    best
}

/// The variable with the fewest pairs of a lower and an upper form, the first of equals, with the number of its pairs.
pub fn next_variable(found: &Tally) -> Option<(u32, u64)>
    ensures value { result ≡ variables.next_variable (entries_of found.now) }
{
    match found {
        Tally::Few(few) => best_of_few(few.as_slice()),
        Tally::Many(many) => best_of_many(many),
    }
}
