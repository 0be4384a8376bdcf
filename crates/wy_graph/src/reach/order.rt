//! Names by falling labels.
ghost use Rattle.std.specs.Prelude.{◌≡◌, ◌<◌, ◌≤◌, ℕ, length, slice_index, IfOk};
ghost use Rattle.wy_graph.specs.cycles.Cycles.{label};
ghost use Rattle.wy_graph.specs.reach.Walks as spec;

use crate::reach::loops::label_at;
use std::alloc::{AllocError, Global};

// The numbers below this one, in order.
fn numbers_below(alloc: Global, count: usize) -> Result<Vec<usize>, AllocError>
    ensures count { IfOk result (λ made. length made.items ≡ count) }
    ensures each { IfOk result (λ made. (n : ℕ) → n < count → slice_index made.items n ≡ n) }
{
    let mut made = Vec::new(alloc);
    for number in 0..count {
        made.push(number)?;
    }
    Ok(made)
}

/// The numbers below this one, by falling labels. Takes the time of a sort.
pub fn by_falling_labels(
    alloc: Global,
    count: usize,
    labels: &[usize],
) -> Result<Vec<usize>, AllocError>
    ensures count { IfOk result (λ order. length order.items ≡ count) }
    ensures each { IfOk result (λ order. (n : ℕ) → n < count → spec.StandsBefore order.items count n) }
    ensures falls { IfOk result (λ order. (i j : ℕ) → i ≤ j → j < length order.items → label labels.now (slice_index order.items j) ≤ label labels.now (slice_index order.items i)) }
{
    let mut order = numbers_below(alloc, count)?;
    order.sort_unstable_by_key(|number| label_at(labels, *number));
    order.reverse();
    Ok(order)
}
