//! Which names lead back to themselves, and which are written out.
ghost use Rattle.std.specs.Prelude.{◌≡◌, ◌<◌, ℕ, length, IfOk};
ghost use Rattle.wy_graph.specs.cycles.Cycles.{Rise, TellCycles};
ghost use Rattle.wy_graph.specs.reach.Reach as reach;
ghost use Rattle.wy_graph.specs.reach.Walks as spec;

use crate::cycles::components;
use crate::reach::arrows::arrows_of;
use crate::reach::entries::Entry;
use crate::reach::loops::loops_by;
use crate::reach::order::by_falling_labels;
use crate::reach::sizes::{TOO_LARGE, is_marked, size_at, sizes_of};
use std::alloc::{AllocError, Global};
use wy_items::Items;

// Labels, equal for names that lead to each other; they rise along each arrow.
fn labels_of(alloc: Global, entries: &[Entry]) -> Result<Items<usize>, AllocError>
    ensures cycles { IfOk result (λ labels. TellCycles (spec.arrows_of 0 entries.now) labels) }
    ensures rising { IfOk result (λ labels. Rise (spec.arrows_of 0 entries.now) labels) }
{
    let arrows = arrows_of(alloc, entries)?;
    let found = components(alloc, entries.len(), arrows.as_slice())?;
    Ok(found.labels)
}

// The names in an order in which each that is written out stands behind those that it mentions.
fn order_of(alloc: Global, entries: &[Entry], labels: &[usize]) -> Result<Vec<usize>, AllocError>
    requires cycles { TellCycles (spec.arrows_of 0 entries.now) labels.now }
    requires rising { Rise (spec.arrows_of 0 entries.now) labels.now }
    ensures value { IfOk result (λ order. spec.IsOrdered entries.now order.items) }
{
    by_falling_labels(alloc, entries.len(), labels)
}

// Whether a name is written out, by its size.
fn is_small(loops: &[bool], sizes: &[usize], number: usize) -> bool
    ensures value { (entries : spec.Entries) → spec.MarkRecursive loops.now entries → spec.AreSizes sizes.now entries → result ≡ reach.is_written entries number }
{
    if is_marked(loops, number) {
        return false;
    }
    size_at(sizes, number) < TOO_LARGE
}

// A mark for each name that is written out.
fn marks_of(
    alloc: Global,
    count: usize,
    loops: &[bool],
    sizes: &[usize],
) -> Result<Items<bool>, AllocError>
    ensures count { IfOk result (λ marks. length marks ≡ count) }
    ensures value { (entries : spec.Entries) → spec.MarkRecursive loops.now entries → spec.AreSizes sizes.now entries → IfOk result (λ marks. (n : ℕ) → n < count → spec.mark_at marks n ≡ reach.is_written entries n) }
{
    let mut marks = Items::new(alloc);
    for number in 0..count {
        marks.push(is_small(loops, sizes, number))?;
    }
    Ok(marks)
}

/// Which names are written out: those that don't lead back to themselves, and that have at most 64 nodes with the names in them written
/// out. Takes the time of a sort, else linear in what they mention, but for what `crate::cycles::components` says.
pub fn written(alloc: Global, entries: &[Entry]) -> Result<Items<bool>, AllocError>
    ensures count { IfOk result (λ marks. length marks ≡ length entries.now) }
    ensures value { IfOk result (λ marks. (n : ℕ) → n < length entries.now → spec.mark_at marks n ≡ reach.is_written entries.now n) }
{
    let labels = labels_of(alloc, entries)?;
    let loops = loops_by(alloc, labels.as_slice(), entries)?;
    let order = order_of(alloc, entries, labels.as_slice())?;
    let sizes = sizes_of(alloc, entries, loops.as_slice(), order.as_slice())?;
    marks_of(alloc, entries.len(), loops.as_slice(), sizes.as_slice())
}
