//! The least congruence.
ghost use Rattle.std.specs.Prelude.{◌≡◌, ◌<◌, ◌↔◌, ℕ, length, IfOk, IsTrue};
ghost use Rattle.wy_cong.specs.congruence_closure.Congruence.{AreWithin, AreBetween, Same, is_same as is_same_by};
ghost use Rattle.wy_cong.specs.congruence_closure.Found.{join_of, joined_by};

use crate::congruence_closure::labels::{first_labels, joined, label};
use crate::congruence_closure::nodes::Shape;
use crate::congruence_closure::rounds::two_apart;
use std::alloc::Global;
use wy_items::{Items, NoMemory};

// The classes of two nodes become one.
fn join(alloc: Global, labels: &[u32], s: u32, t: u32) -> Result<Items<u32>, NoMemory>
    ensures value { IfOk result (λ made. made ≡ join_of labels.now s t) }
{
    joined(alloc, labels, label(labels, s), label(labels, t))
}

// The classes of both sides of each equation become one.
fn with_equations(
    alloc: Global,
    labels: Items<u32>,
    equations: &[(u32, u32)],
) -> Result<Items<u32>, NoMemory>
    ensures value { IfOk result (λ made. made ≡ joined_by labels equations.now) }
{
    let mut labels = labels;
    for e in equations {
        labels = join(alloc, labels.as_slice(), e.0, e.1)?;
    }
    Ok(labels)
}

/// The classes of the least congruence that has the equations, as a label for each node: two nodes have the same label
/// exactly where they are equal in each congruence. A round takes time linear in the nodes on average, and joins two
/// classes unless it is the last.
pub fn classes(
    alloc: Global,
    shapes: &[Shape],
    equations: &[(u32, u32)],
) -> Result<Items<u32>, NoMemory>
    requires within { AreWithin shapes.now }
    requires between { AreBetween (length shapes.now) equations.now }
    ensures count { IfOk result (λ labels. length labels ≡ length shapes.now) }
    ensures least { IfOk result (λ labels. (i j : ℕ) → i < length shapes.now → j < length shapes.now → IsTrue (is_same_by labels i j) ↔ Same shapes.now equations.now i j) }
{
    let first = first_labels(alloc, shapes.len())?;
    let mut labels = with_equations(alloc, first, equations)?;
    for _round in 0..shapes.len() {
        match two_apart(alloc, shapes, labels.as_slice())? {
            None => return Ok(labels),
            Some(pair) => {
                labels = join(alloc, labels.as_slice(), pair.0, pair.1)?;
            }
        }
    }
    match two_apart(alloc, shapes, labels.as_slice())? {
        None => Ok(labels),
        Some(_) => Err(NoMemory),
    }
}
