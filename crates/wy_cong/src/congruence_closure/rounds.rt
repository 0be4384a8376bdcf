//! Two applications of equal nodes to equal nodes.
ghost use Rattle.std.specs.Prelude.{◌≡◌, ◌+◌, Some, slice_get, IfOk, MatchOption};
ghost use Rattle.std.specs.HashMap.{get};
ghost use Rattle.wy_cong.specs.declared.congruence_closure.nodes.Shape.TheVariants.{Apply};
ghost use Rattle.wy_cong.specs.congruence_closure.Found.{same_pair, AllFound, AreKeyed, IsApart, IsClosed};

use crate::congruence_closure::labels::{is_same, label, number_of};
use crate::congruence_closure::nodes::Shape;
use std::alloc::Global;
use std::collections::HashMap;
use wy_items::{NoMemory, at};

// The node at an index.
fn shape_at(shapes: &[Shape], index: usize) -> Option<Shape>
    ensures value { result ≡ slice_get shapes.now index }
{
    at(shapes, index).copied()
}

// Looks for an application with the same labels in another class. Where there is none, the node is noted.
fn meet(
    found: &mut HashMap<(u32, u32), u32>,
    shapes: &[Shape],
    labels: &[u32],
    i: u32,
    a: u32,
    b: u32,
) -> Result<Option<u32>, NoMemory>
    requires here { slice_get shapes.now i ≡ Some (Apply a b) }
    requires keyed { AreKeyed shapes.now labels.now (get same_pair found.old) }
    requires found { AllFound shapes.now labels.now (get same_pair found.old) i }
    ensures apart { IfOk result (λ o. MatchOption o (AreKeyed shapes.now labels.now (get same_pair found.new) × AllFound shapes.now labels.now (get same_pair found.new) (i + 1)) (λ j. IsApart shapes.now labels.now (i, j))) }
{
    let key = (label(labels, a), label(labels, b));
    match found.get(&key) {
        Some(j) => {
            if is_same(labels, i, *j) {
                return Ok(None);
            }
            Ok(Some(*j))
        }
        None => {
            found.insert(key, i)?;
            Ok(None)
        }
    }
}

// The node at an index: an application is looked for, and a name is none.
fn look(
    found: &mut HashMap<(u32, u32), u32>,
    shapes: &[Shape],
    labels: &[u32],
    index: usize,
) -> Result<Option<(u32, u32)>, NoMemory>
    requires keyed { AreKeyed shapes.now labels.now (get same_pair found.old) }
    requires found { AllFound shapes.now labels.now (get same_pair found.old) index }
    ensures apart { IfOk result (λ o. MatchOption o (AreKeyed shapes.now labels.now (get same_pair found.new) × AllFound shapes.now labels.now (get same_pair found.new) (index + 1)) (λ p. IsApart shapes.now labels.now p)) }
{
    match shape_at(shapes, index) {
        None => Ok(None),
        Some(shape) => match shape {
            Shape::Name => Ok(None),
            Shape::Apply(a, b) => {
                let i = number_of(index)?;
                match meet(found, shapes, labels, i, a, b)? {
                    None => Ok(None),
                    Some(j) => Ok(Some((i, j))),
                }
            }
        },
    }
}

/// Two applications of nodes with equal labels that are in two classes, if there are any. It takes time linear in the
/// nodes on average.
pub fn two_apart(
    alloc: Global,
    shapes: &[Shape],
    labels: &[u32],
) -> Result<Option<(u32, u32)>, NoMemory>
    ensures apart { IfOk result (λ o. MatchOption o (IsClosed shapes.now labels.now) (λ p. IsApart shapes.now labels.now p)) }
{
    let mut found = HashMap::new(alloc);
    for index in 0..shapes.len() {
        match look(&mut found, shapes, labels, index)? {
            None => {}
            Some(pair) => return Ok(Some(pair)),
        }
    }
    Ok(None)
}
