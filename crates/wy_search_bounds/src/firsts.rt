//! The first place of each place's class.
ghost use Rattle.std.specs.Prelude.{◌≡◌, ◌<◌, ◌+◌, length, nat_eq, slice_index, IfOk, OnOk};
ghost use Rattle.std.specs.HashMap.{get};
ghost use Rattle.wy_search_bounds.specs.Firsts.{AreFirsts, AreNoted};
ghost use Rattle.wy_cong.specs.wy_search_spec.Bounds as bounds;

use crate::sums::form_number;
use std::alloc::Global;
use std::collections::HashMap;
use wy_items::at;
use wy_term::NoMemory;

// The label at a place, 0 where there is none.
fn label_at(labels: &[u32], k: u32) -> u32
    ensures { result ≡ slice_index labels.now k }
{
    match at(labels, k as usize) {
        Some(found) => *found,
        None => 0,
    }
}

// The first place with a label, or the count of places where there is none.
fn first_with(labels: &[u32], l: u32) -> Result<u32, NoMemory>
    ensures { IfOk result (λ k. k ≡ bounds.first_with labels.now l 0) }
{
    let mut found = 0;
    for m in labels {
        if *m == l {
            return Ok(found);
        }
        if found == u32::MAX {
            return Err(NoMemory);
        }
        found += 1;
    }
    Ok(found)
}

// The first place of a place's class, where the first places of the labels before it were noted.
fn note_first(found: &mut HashMap<u32, u32>, labels: &[u32], v: u32) -> Result<u32, NoMemory>
    requires place { v < length labels.now }
    requires found { AreNoted labels.now (get nat_eq found.old) v }
    ensures value { IfOk result (λ k. k ≡ bounds.first_of_class labels.now v) }
    ensures found { OnOk result (AreNoted labels.now (get nat_eq found.new) (v + 1)) }
{
    let l = label_at(labels, v);
    match found.get(&l).copied() {
        Some(first) => Ok(first),
        None => {
            found.insert(l, v)?;
            Ok(v)
        }
    }
}

/// The most places for which no list is made: to look through them takes less time than to make a table.
const FEW: usize = 32;

/// For each place the first place of its class, in time linear in the places on average; an empty list, in constant time, where there are at most `FEW` places.
pub fn first_places(alloc: Global, labels: &[u32]) -> Result<Vec<u32>, NoMemory>
    ensures { IfOk result (λ fs. AreFirsts labels.now fs.items) }
{
    let mut firsts = Vec::new(alloc);
    if labels.len() <= FEW {
        return Ok(firsts);
    }
    let mut found = HashMap::new(alloc);
    for i in 0..labels.len() {
        let v = form_number(i)?;
        let first = note_first(&mut found, labels, v)?;
        firsts.push(first)?;
    }
    Ok(firsts)
}

/// The first place of a place's class, in constant time where it is listed, else in time linear in that first place.
pub fn first_of_class(labels: &[u32], firsts: &[u32], v: u32) -> Result<u32, NoMemory>
    requires { AreFirsts labels.now firsts.now }
    ensures { IfOk result (λ k. k ≡ bounds.first_of_class labels.now v) }
{
    match at(firsts, v as usize) {
        Some(first) => Ok(*first),
        None => first_with(labels, label_at(labels, v)),
    }
}
