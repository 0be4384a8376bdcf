//! Counts of few variables, which are looked through.
ghost use Rattle.std.specs.Prelude.{◌≡◌, ◌<◌, length, map, nat_eq, slice_set, IfOk, IfSome, OnOk};
ghost use Rattle.indexmap.specs.IndexMap.{insert_entry};
ghost use Rattle.wy_lin.specs.Seen.{linear_form};
ghost use Rattle.wy_lin_eliminate.specs.Variables as variables;
ghost use Rattle.wy_lin_eliminate.specs.Seen.{entry_from};

use crate::places::parts_at;
use smallvec::SmallVec;
use std::alloc::Global;
use wy_lin::{Form, NoMemory};

/// How many lower and how many upper forms a variable has, with one more, by the sign of the coefficient.
pub fn one_more(c: i128, n: (u32, u32)) -> Result<(u32, u32), NoMemory>
    ensures value { IfOk result (λ m. m ≡ variables.one_more c n) }
{
    if c < 0 {
        let upper = n.1.checked_add(1).ok_or(NoMemory)?;
        Ok((n.0, upper))
    } else {
        let lower = n.0.checked_add(1).ok_or(NoMemory)?;
        Ok((lower, n.1))
    }
}

// Where the entry of a variable stands.
fn entry_place(entries: &[(u32, (u32, u32))], v: u32) -> Option<usize>
    ensures value { result ≡ entry_from entries.now v 0 }
    ensures within { IfSome result (λ k. k < length entries.now) }
{
    for (k, entry) in entries.iter().enumerate() {
        if v == entry.0 {
            return Some(k);
        }
    }
    None
}

// The counts of a variable.
fn counts_among(entries: &[(u32, (u32, u32))], v: u32) -> (u32, u32)
    ensures value { result ≡ variables.counts_of entries.now v }
{
    for entry in entries {
        if v == entry.0 {
            return entry.1;
        }
    }
    (0, 0)
}

// This entry in the place of the one at an index.
fn set_entry(entries: &mut [(u32, (u32, u32))], k: usize, entry: (u32, (u32, u32)))
    requires { k < length entries.old }
    ensures value { entries.new ≡ slice_set entries.old k entry }
{
    entries[k] = entry;
}

// The entries with these counts of a variable.
#[tactic(auto, using(crate::proofs::FewLemmas::put_lost))]
fn put_counts(
    found: &mut SmallVec<(u32, (u32, u32)), 20, Global>,
    v: u32,
    n: (u32, u32),
) -> Result<(), NoMemory>
    ensures value { OnOk result (found.new.items ≡ insert_entry nat_eq found.old.items v n) }
{
    match entry_place(found.as_slice(), v) {
        Some(k) => set_entry(found.as_mut_slice(), k, (v, n)),
        None => found.push((v, n))?,
    }
    Ok(())
}

// One part more.
fn count_among(
    found: &mut SmallVec<(u32, (u32, u32)), 20, Global>,
    part: (i128, u32),
) -> Result<(), NoMemory>
    ensures value { OnOk result (found.new.items ≡ variables.counted found.old.items part) }
{
    if part.0 == 0 {
        return Ok(());
    }
    let n = one_more(part.0, counts_among(found.as_slice(), part.1))?;
    put_counts(found, part.1, n)?;
    Ok(())
}

// The parts of a form more.
fn count_parts_among(
    found: &mut SmallVec<(u32, (u32, u32)), 20, Global>,
    parts: &[(i128, u32)],
) -> Result<(), NoMemory>
    ensures value { OnOk result (found.new.items ≡ variables.counted_parts found.old.items parts.now) }
{
    for part in parts {
        count_among(found, *part)?;
    }
    Ok(())
}

/// The variables of the forms at these places, by first appearance, each with its number of lower and of upper forms, where
/// they are few: none where the variables before a form and its parts would be more than 20. Each part is compared with
/// the variables so far.
pub fn few_variables(
    alloc: Global,
    all: &[Form],
    places: &[u32],
) -> Result<Option<SmallVec<(u32, (u32, u32)), 20, Global>>, NoMemory>
    ensures value { IfOk result (λ o. IfSome o (λ found. found.items ≡ variables.variables (map linear_form all.now) places.now)) }
{
    let mut found = SmallVec::new(alloc);
    for i in places {
        let parts = parts_at(all, *i);
        if found.len().saturating_add(parts.len()) > 20 {
            return Ok(None);
        }
        count_parts_among(&mut found, parts)?;
    }
    Ok(Some(found))
}
