//! The way from one term to another of its class.
use crate::merging::Merge;
use std::alloc::Global;
use std::collections::HashMap;
use wy_term::NoMemory;

// For each term, the next one on its way; those that are one merge farther come to it.
fn spread(next: &mut HashMap<u32, u32>, merge: Merge) -> Result<(), NoMemory> {
    let first = next.contains_key(&merge.first);
    let second = next.contains_key(&merge.second);
    if first && !second {
        next.insert(merge.second, merge.first)?;
    }
    if second && !first {
        next.insert(merge.first, merge.second)?;
    }
    Ok(())
}

fn spread_all(next: &mut HashMap<u32, u32>, merges: &[Merge]) -> Result<(), NoMemory> {
    for merge in merges {
        spread(next, *merge)?;
    }
    Ok(())
}

// For terms of a class, the next one on the way to this term, at least as far as to the other one.
fn ways_to(alloc: Global, merges: &[Merge], s: u32, t: u32) -> Result<HashMap<u32, u32>, NoMemory> {
    let mut next = HashMap::new(alloc);
    next.insert(t, t)?;
    for _round in 0..merges.len() {
        if next.contains_key(&s) {
            return Ok(next);
        }
        spread_all(&mut next, merges)?;
    }
    Ok(next)
}

fn next_of(next: &HashMap<u32, u32>, s: u32) -> Option<u32> {
    next.get(&s).copied()
}

/// The terms on the way from one term to another, both included, of which each two neighbours were merged, in time quadratic
/// in the number of merges. It is empty where no way leads there.
pub fn path(alloc: Global, merges: &[Merge], s: u32, t: u32) -> Result<Vec<u32>, NoMemory> {
    let next = ways_to(alloc, merges, s, t)?;
    let mut way = Vec::from_slice(alloc, &[s])?;
    let mut now = s;
    for _turn in 0..merges.len() {
        if now == t {
            return Ok(way);
        }
        match next_of(&next, now) {
            Some(there) => {
                way.push(there)?;
                now = there;
            }
            None => return Ok(Vec::new(alloc)),
        }
    }
    if now == t {
        return Ok(way);
    }
    Ok(Vec::new(alloc))
}
