//! Classes, each as a label of its nodes.
ghost use Rattle.std.specs.Prelude.{◌≡◌, ◌<◌, ℕ, length, map, IfOk};
ghost use Rattle.wy_cong.specs.congruence_closure.Congruence as congruence;
ghost use Rattle.wy_cong.specs.congruence_closure.Found.{moved as moved_to};

use std::alloc::Global;
use wy_items::{Items, NoMemory, at};

/// The label of a node, 0 where there is none.
pub fn label(labels: &[u32], i: u32) -> u32
    ensures value { result ≡ congruence.label_at labels.now i }
{
    match at(labels, i as usize) {
        Some(found) => *found,
        None => 0,
    }
}

/// Whether two nodes are in one class. It takes constant time and no memory.
pub fn is_same(labels: &[u32], i: u32, j: u32) -> bool
    ensures value { result ≡ congruence.is_same labels.now i j }
{
    label(labels, i) == label(labels, j)
}

// The label, where one class joins another.
fn moved(from: u32, into: u32, l: u32) -> u32
    ensures value { result ≡ moved_to from into l }
{
    if l == from { into } else { l }
}

/// The labels, where the class with one label joins the class with another, in time linear in the nodes.
pub fn joined(alloc: Global, labels: &[u32], from: u32, into: u32) -> Result<Items<u32>, NoMemory>
    ensures value { IfOk result (λ made. made ≡ map (moved_to from into) labels.now) }
{
    let mut made = Items::new(alloc);
    for l in labels {
        made.push(moved(from, into, *l))?;
    }
    Ok(made)
}

/// An index as the number of a node. A list of 2^32 nodes or more has too many.
pub fn number_of(index: usize) -> Result<u32, NoMemory>
    ensures value { IfOk result (λ i. i ≡ index) }
{
    match u32::try_from(index) {
        Ok(i) => Ok(i),
        Err(_) => Err(NoMemory),
    }
}

/// A class of its own for each of so many nodes.
pub fn first_labels(alloc: Global, count: usize) -> Result<Items<u32>, NoMemory>
    ensures count { IfOk result (λ made. length made ≡ count) }
    ensures own { IfOk result (λ made. (i : ℕ) → i < count → congruence.label_at made i ≡ i) }
{
    let mut made = Items::new(alloc);
    for number in 0..count {
        made.push(number_of(number)?)?;
    }
    Ok(made)
}
