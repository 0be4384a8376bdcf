//! Classes, each as a label of its terms.
ghost use Rattle.std.specs.Prelude.{◌≡◌, true, slice_index, IfOk};
ghost use Rattle.wy_cong.specs.Heads.{moved as moved_to, own_labels};
ghost use Rattle.wy_search_spec.specs.Classes as classes;

use std::alloc::Global;
use wy_items::at;
use wy_term::NoMemory;

/// The label at a place, 0 where there is none.
pub fn label_at(labels: &[u32], k: u32) -> u32
    ensures { result ≡ slice_index labels.now k }
{
    match at(labels, k as usize) {
        Some(found) => *found,
        None => 0,
    }
}

/// Whether these are two equal labels.
pub fn same_label(a: Option<u32>, b: Option<u32>) -> bool
    ensures { result ≡ classes.same_label a b }
{
    match (a, b) {
        (Some(l), Some(m)) => l == m,
        (Some(_), None) => false,
        (None, _) => false,
    }
}

// The label, where one class becomes another.
fn moved(from: u32, into: u32, l: u32) -> u32
    ensures { result ≡ moved_to from into l }
{
    if l == from { into } else { l }
}

// The labels, where the class with one label becomes the class with another.
fn relabelled(alloc: Global, from: u32, into: u32, labels: &[u32]) -> Result<Vec<u32>, NoMemory>
    ensures { IfOk result (λ made. made.items ≡ classes.relabelled from into labels.now) }
{
    let mut made = Vec::with_capacity(alloc, labels.len())?;
    for l in labels {
        made.push(moved(from, into, *l))?;
    }
    Ok(made)
}

/// The labels, where the class with one label, if there is one, becomes the class with another, if there is one. It takes
/// time linear in the number of labels where these are two labels that differ.
pub fn joined(
    alloc: Global,
    labels: Vec<u32>,
    a: Option<u32>,
    b: Option<u32>,
) -> Result<Vec<u32>, NoMemory>
    ensures { IfOk result (λ made. made.items ≡ classes.joined labels.items a b) }
{
    match (a, b) {
        (Some(from), Some(into)) => {
            if from == into {
                return Ok(labels);
            }
            relabelled(alloc, from, into, &labels)
        }
        (Some(_), None) => Ok(labels),
        (None, _) => Ok(labels),
    }
}

/// So many labels, each of a class of its own.
pub fn first_labels(alloc: Global, count: usize) -> Result<Vec<u32>, NoMemory>
    ensures { IfOk result (λ made. made.items ≡ own_labels 0 count) }
{
    let mut made = Vec::with_capacity(alloc, count)?;
    for number in 0..count {
        match u32::try_from(number) {
            Ok(l) => made.push(l)?,
            Err(_) => return Err(NoMemory),
        }
    }
    Ok(made)
}

/// A copy of the labels.
pub fn copied(alloc: Global, labels: &[u32]) -> Result<Vec<u32>, NoMemory>
    ensures { IfOk result (λ made. made.items ≡ labels.now) }
{
    Ok(Vec::from_slice(alloc, labels)?)
}

/// Whether the labels are the same.
pub fn are_same(a: &[u32], b: &[u32]) -> bool
    ensures { result ≡ true → a.now ≡ b.now }
{
    a == b
}
