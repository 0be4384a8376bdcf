//! How large names are when they are written out.
ghost use Rattle.std.specs.Prelude.{◌≡◌, ◌+◌, ℕ, length, slice_index_or, IfOk};
ghost use Rattle.wy_graph.specs.reach.Reach.{sum_of};
ghost use Rattle.wy_graph.specs.reach.Walks as spec;

use crate::reach::entries::Entry;
use std::alloc::{AllocError, Global};
use wy_items::{Items, at};

/// More nodes than a name that is written out has.
pub const TOO_LARGE: usize = 65;

// The sum, and at most `TOO_LARGE`.
fn added(a: usize, b: usize) -> usize
    ensures value { result ≡ spec.capped (a + b) }
{
    if a < TOO_LARGE && b < TOO_LARGE - a {
        a + b
    } else {
        TOO_LARGE
    }
}

/// The size of a name; what has none is one node.
pub fn size_at(sizes: &[usize], number: usize) -> usize
    ensures value { result ≡ spec.size_at sizes.now number }
{
    match sizes.get(number) {
        None => 1,
        Some(size) => *size,
    }
}

/// Whether a name is marked; one without a mark isn't.
pub fn is_marked(marks: &[bool], number: usize) -> bool
    ensures value { result ≡ spec.mark_at marks.now number }
{
    match marks.get(number) {
        None => false,
        Some(mark) => *mark,
    }
}

// The nodes of a definition and its clauses, up to `TOO_LARGE`, where each name counts as its size.
fn size_of(sizes: &[usize], own: usize, names: &[u32]) -> usize
    ensures value { result ≡ spec.capped (own + sum_of (spec.size_at sizes.now) names.now) }
{
    let mut size = added(own, 0);
    for name in names {
        let more = size_at(sizes, *name as usize);
        size = added(size, more);
    }
    size
}

// A size of one node for each of so many names.
fn single_nodes(alloc: Global, count: usize) -> Result<Items<usize>, AllocError>
    ensures count { IfOk result (λ sizes. length sizes ≡ count) }
    ensures ones { IfOk result (λ sizes. (n : ℕ) → spec.size_at sizes n ≡ 1) }
{
    let mut sizes: Items<usize> = Items::new(alloc);
    for number in 0..count {
        sizes.push(1)?;
    }
    Ok(sizes)
}

// Puts the size of one more name.
fn put_size(entries: &[Entry], loops: &[bool], sizes: &mut Items<usize>, number: usize)
    requires { length sizes.old ≡ length entries.now }
    ensures count { length sizes.new ≡ length sizes.old }
    ensures value { sizes.new ≡ spec.with_size entries.now loops.now sizes.old number }
{
    if is_marked(loops, number) {
        return;
    }
    match at(entries, number) {
        None => (),
        Some(entry) => {
            let size = size_of(sizes.as_slice(), entry.own, entry.names.as_slice());
            sizes.set(number, size);
        }
    }
}

/// The sizes of names, up to `TOO_LARGE`, in this order. Linear in what they mention.
pub fn sizes_of(
    alloc: Global,
    entries: &[Entry],
    loops: &[bool],
    order: &[usize],
) -> Result<Items<usize>, AllocError>
    requires loops { spec.MarkRecursive loops.now entries.now }
    requires order { spec.IsOrdered entries.now order.now }
    ensures value { IfOk result (λ sizes. spec.AreSizes sizes entries.now) }
{
    let mut sizes = single_nodes(alloc, entries.len())?;
    for number in order {
        put_size(entries, loops, &mut sizes, *number);
    }
    Ok(sizes)
}
