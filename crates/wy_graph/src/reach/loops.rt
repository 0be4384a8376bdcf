//! Names that lead back to themselves, by labels.
ghost use Rattle.std.specs.Prelude.{◌≡◌, ◌==◌, IfOk};
ghost use Rattle.wy_graph.specs.cycles.Cycles.{label};
ghost use Rattle.wy_graph.specs.reach.Walks as spec;

use crate::reach::entries::Entry;
use std::alloc::{AllocError, Global};
use wy_items::Items;

/// The label of a name, or 0 where it has none.
pub fn label_at(labels: &[usize], number: usize) -> usize
    ensures value { result ≡ label labels.now number }
{
    match labels.get(number) {
        None => 0,
        Some(found) => *found,
    }
}

// Whether a name has the label of one of these.
fn is_looped(labels: &[usize], number: usize, names: &[u32]) -> bool
    ensures value { result ≡ spec.is_looped labels.now number names.now }
{
    let own = label_at(labels, number);
    for name in names {
        let other = label_at(labels, *name as usize);
        if own == other {
            return true;
        }
    }
    false
}

/// Which names have the label of one that they mention. Linear in these.
pub fn loops_by(
    alloc: Global,
    labels: &[usize],
    entries: &[Entry],
) -> Result<Items<bool>, AllocError>
    ensures value { IfOk result (λ marks. marks ≡ spec.loops_by labels.now 0 entries.now) }
{
    let mut marks = Items::new(alloc);
    for (number, entry) in entries.iter().enumerate() {
        marks.push(is_looped(labels, number, entry.names.as_slice()))?;
    }
    Ok(marks)
}
