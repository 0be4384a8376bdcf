//! Sets of numbers, as a mark for each number.
ghost use Rattle.std.specs.Prelude.{◌≡◌, ◌<◌, ℕ, false, true, length, take, IfOk};
ghost use Rattle.wy_graph.specs.closure.Marks as marking;

use std::alloc::{AllocError, Global};
use wy_items::Items;

/// Whether the number has a mark.
pub fn mark_at(marks: &[bool], number: usize) -> bool
    ensures value { result ≡ marking.mark_at marks.now number }
{
    match marks.get(number) {
        None => false,
        Some(mark) => *mark,
    }
}

/// Whether one of the numbers has a mark.
pub fn any_marked(marks: &[bool], numbers: &[u32]) -> bool
    ensures value { result ≡ marking.any_marked marks.now numbers.now }
{
    for number in numbers {
        if mark_at(marks, *number as usize) {
            return true;
        }
    }
    false
}

/// Whether each list has a number with a mark.
pub fn each_marked(marks: &[bool], lists: &[Items<u32>]) -> bool
    ensures value { result ≡ marking.each_marked marks.now lists.now }
{
    for numbers in lists {
        if !any_marked(marks, numbers.as_slice()) {
            return false;
        }
    }
    true
}

/// The first of the lists that has no number with a mark, where the `known` ones before it are known to have one; their count
/// if each has. It takes the time of the lists that it looks at.
#[tactic(auto, using(crate::proofs::closure_lemmas::MetLemmas::met_more, crate::proofs::closure_lemmas::MetLemmas::unmet_at))]
pub fn first_unmet(marks: &[bool], lists: &[Items<u32>], known: usize) -> usize
    requires known { marking.each_marked marks.now (take known lists.now) ≡ true }
    ensures known { marking.each_marked marks.now (take result lists.now) ≡ true }
    ensures unmet { result < length lists.now → marking.each_marked marks.now lists.now ≡ false }
{
    let mut first = known;
    while first < lists.len() {
        if !any_marked(marks, lists[first].as_slice()) {
            return first;
        }
        first += 1;
    }
    first
}

/// No mark for each of so many numbers.
#[tactic(auto, using(crate::proofs::closure_lemmas::MarkLemmas::no_mark_more))]
pub fn no_marks(alloc: Global, count: usize) -> Result<Items<bool>, AllocError>
    ensures none { IfOk result (λ marks. (n : ℕ) → marking.mark_at marks n ≡ false) }
    ensures count { IfOk result (λ marks. length marks ≡ count) }
{
    let mut marks: Items<bool> = Items::new(alloc);
    for number in 0..count {
        marks.push(false)?;
    }
    Ok(marks)
}
