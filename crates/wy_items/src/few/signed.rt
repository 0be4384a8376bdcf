//! Numbers that hold or are denied, each once, in the order in which they came.
ghost use Rattle.std.specs.Prelude.{◌≡◌, ◌≤◌, ◌++◌, ◌∷◌, ℕ, Bool, [], false, true, not, length, IfOk, OnOk};
ghost use Rattle.std.specs.HashSet.{contains};
ghost use Rattle.wy_items.specs.few.Signed.{is_among, last_of, listed, noted_from, same_key, IsSignedSet, NotesAll};

use crate::few::numbers::place_number;
use std::alloc::{AllocError, Global};
use std::collections::HashSet;

// How many are looked through.
const FEW: usize = 80;

// How many remainders of numbers are told apart.
const REMAINDERS: usize = 128;

/// Numbers, each with whether it holds; for each remainder by 128 the place of the last number that has it, if there is one; and,
/// where the numbers are more than a few, a table of them.
#[derive(Drop)]
pub struct SignedSet {
    pub keys: Vec<(u32, bool)>,
    pub last: [Option<u32>; REMAINDERS],
    pub table: HashSet<(u32, bool)>,
}

/// No numbers yet, with room for so many.
pub fn no_signed(alloc: Global, room: usize) -> Result<SignedSet, AllocError>
    ensures keys { IfOk result (λ s. s.keys.items ≡ []) }
    ensures set { IfOk result IsSignedSet }
{
    Ok(SignedSet {
        keys: Vec::with_capacity(alloc, room)?,
        last: [None; REMAINDERS],
        table: HashSet::new(alloc),
    })
}

fn is_among_few(keys: &[(u32, bool)], k: u32, holds: bool) -> bool
    ensures { result ≡ is_among keys.now (k, holds) }
{
    for key in keys {
        if key.0 == k && key.1 == holds {
            return true;
        }
    }
    false
}

// The place of the last number that has the same remainder as this one.
fn last_like(set: &SignedSet, k: u32) -> Option<u32>
    requires { IsSignedSet set.now }
    ensures { result ≡ last_of set.now.last k }
{
    set.last[k as usize % REMAINDERS]
}

// Whether the number with its sign stands at a place.
fn is_at(keys: &[(u32, bool)], place: u32, k: u32, holds: bool) -> bool
    ensures { result ≡ true → is_among keys.now (k, holds) ≡ true }
{
    match keys.get(place as usize) {
        Some(key) => key.0 == k && key.1 == holds,
        None => false,
    }
}

// Whether it is there, by looking through few, or by the table.
fn is_among_all(set: &SignedSet, k: u32, holds: bool) -> bool
    requires { IsSignedSet set.now }
    ensures { result ≡ is_among set.now.keys.items (k, holds) }
{
    if set.keys.len() <= FEW {
        return is_among_few(&set.keys, k, holds);
    }
    set.table.contains(&(k, holds))
}

/// Whether a number is there that holds, or that is denied. Where no number has the same remainder, or the last one that has it is
/// this one, it takes constant time; else few are looked through, and of more the table tells it in constant time on average.
pub fn is_listed(set: &SignedSet, k: u32, holds: bool) -> bool
    requires { IsSignedSet set.now }
    ensures { result ≡ is_among set.now.keys.items (k, holds) }
{
    match last_like(set, k) {
        None => false,
        Some(place) => is_at(&set.keys, place, k, holds) || is_among_all(set, k, holds),
    }
}

// Notes all of these in a table.
fn note_all(table: &mut HashSet<(u32, bool)>, keys: &[(u32, bool)]) -> Result<(), AllocError>
    ensures { OnOk result (NotesAll (contains same_key table.old) (contains same_key table.new) keys.now) }
{
    for key in keys {
        table.insert(*key)?;
    }
    Ok(())
}

// Notes all of a set, where they are as many as are looked through: with one more they will be in the table.
fn note_few(set: &mut SignedSet) -> Result<(), AllocError>
    requires set { IsSignedSet set.old }
    ensures keys { set.new.keys ≡ set.old.keys }
    ensures last { set.new.last ≡ set.old.last }
    ensures table { OnOk result ((p : ℕ × Bool) → contains same_key set.new.table p ≡ noted_from 80 set.old.keys.items p) }
{
    if set.keys.len() == FEW {
        return note_all(&mut set.table, &set.keys);
    }
    Ok(())
}

/// Lists a number that holds or is denied, unless it is there, in amortized constant time on average. Whether it is new. A set that
/// has 2^32 numbers already takes no more: that is answered as want of memory. After want of memory of either kind the set isn't to
/// be used again.
pub fn list(set: &mut SignedSet, k: u32, holds: bool) -> Result<bool, AllocError>
    requires set { IsSignedSet set.old }
    ensures value { OnOk result (set.new.keys.items ≡ listed set.old.keys.items (k, holds)) }
    ensures told { IfOk result (λ new. new ≡ not (is_among set.old.keys.items (k, holds))) }
    ensures set { OnOk result (IsSignedSet set.new) }
{
    if is_listed(set, k, holds) {
        return Ok(false);
    }
    let count = set.keys.len();
    let place = place_number(count)?;
    note_few(set)?;
    set.keys.push((k, holds))?;
    set.last[k as usize % REMAINDERS] = Some(place);
    if count >= FEW {
        set.table.insert((k, holds))?;
    }
    Ok(true)
}
