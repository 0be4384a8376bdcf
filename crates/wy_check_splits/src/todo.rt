//! Which terms are still to be looked at.
ghost use Rattle.std.specs.Prelude.{◌≡◌, ◌<◌, ◌||◌, ℕ, Bool, Some, length, slice_get, OnOk};
ghost use Rattle.wy_check_nodes.specs.wy_facts.Seen.{AreBelow};
ghost use Rattle.wy_check_nodes.specs.Seen.{AreOver};
ghost use Rattle.wy_check_splits.specs.Walk.{any_over, any_first};

use indexmap::IndexSet;
use std::collections::BTreeSet;
use wy_check_nodes::NoMemory;

/// Notes that these terms are to be looked at, in time n log n in how many are noted.
pub fn put_all(todo: &mut BTreeSet<u32>, parts: &[u32]) -> Result<(), NoMemory>
    ensures value { (test : ℕ → Bool) → OnOk result (any_over test todo.new.keys ≡ (any_over test parts.now || any_over test todo.old.keys)) }
    ensures below { (n : ℕ) → AreBelow n parts.now → AreBelow n todo.old.keys → OnOk result (AreBelow n todo.new.keys) }
{
    for part in parts {
        todo.insert(*part)?;
    }
    Ok(())
}

// The member of a list with a place from 0.
fn nth(set: &IndexSet<(u32, bool)>, i: usize) -> (u32, bool)
    requires { i < length set.now.keys }
    ensures { slice_get set.now.keys i ≡ Some result }
{
    match set.get_index(i) {
        Some(p) => *p,
        None => (0, false),
    }
}

/// Notes that the terms of these literals, or pending formulas, are to be looked at.
pub fn put_members(todo: &mut BTreeSet<u32>, set: &IndexSet<(u32, bool)>) -> Result<(), NoMemory>
    ensures value { (test : ℕ → Bool) → OnOk result (any_over test todo.new.keys ≡ (any_first test set.now.keys || any_over test todo.old.keys)) }
    ensures below { (n : ℕ) → AreOver n set.now.keys → AreBelow n todo.old.keys → OnOk result (AreBelow n todo.new.keys) }
{
    for i in 0..set.len() {
        let member = nth(set, i);
        todo.insert(member.0)?;
    }
    Ok(())
}
