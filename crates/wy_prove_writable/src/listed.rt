//! The terms of a certificate.
ghost use Rattle.std.specs.Prelude.{◌≡◌, ◌<◌, ◌≤◌, ◌↔◌, ℕ, length, All, IfOk, IsTrue, MatchOption};
ghost use Rattle.wy_term_subst.specs.sorted.Sorted.{IsSorted};
ghost use Rattle.wy_term.specs.Nodes.{tree_at};
ghost use Rattle.wy_prove_writable.specs.Listed.{AreCopies, ArePartsCopied, CanBeWritten, IsCopy, TellWritable};

use crate::folding::made_again;
use crate::ranges::is_in_range;
use crate::sorted::sorted_terms;
use wy_term::{NoMemory, Terms};
use wy_term_subst::parts_of;

// The numbers of these parts in the other list, if each can be written.
fn copied_parts(
    again: &Terms,
    terms: &Terms,
    copies: &[Option<u32>],
    parts: &[u32],
) -> Result<Option<Vec<u32>>, NoMemory>
    requires parts { All (λ k. k < length copies.now) parts.now }
    requires copies { AreCopies terms.now again.now copies.now }
    ensures value { IfOk result (λ o. MatchOption o (All (λ k. CanBeWritten (tree_at terms.now k)) parts.now → ⊥) (λ numbers. ArePartsCopied terms.now again.now parts.now numbers.items)) }
{
    let mut numbers = Vec::new(again.allocator());
    for part in parts {
        match copies[*part as usize] {
            Some(number) => numbers.push(number)?,
            None => return Ok(None),
        }
    }
    Ok(Some(numbers))
}

// The number of a term in the other list, if it can be written, where those before it are copied there.
fn copied(
    again: &mut Terms,
    terms: &Terms,
    sorted: bool,
    copies: &[Option<u32>],
    number: u32,
) -> Result<Option<u32>, NoMemory>
    requires number { number < length terms.now }
    requires many { length copies.now ≡ number }
    requires sorted { IsTrue sorted ↔ IsSorted (tree_at terms.now number) }
    requires copies { AreCopies terms.now again.old copies.now }
    ensures value { IfOk result (IsCopy again.new (tree_at terms.now number)) }
    ensures kept { (t : ℕ) → t < length again.old → tree_at again.new t ≡ tree_at again.old t }
    ensures grows { length again.old ≤ length again.new }
{
    if !sorted {
        return Ok(None);
    }
    let alloc = terms.allocator();
    let node = terms.node(number);
    if !is_in_range(alloc, node)? {
        return Ok(None);
    }
    let parts = parts_of(alloc, node)?;
    match copied_parts(again, terms, copies, &parts)? {
        None => Ok(None),
        Some(numbers) => made_again(again, node, &numbers),
    }
}

/// A number for each term of a list that can be written: it is folded, its parts are of the sorts that their places want, and names
/// and numbers are within their ranges, and its parts can be written; none for each other. It takes time linear in the terms and
/// their parts, and makes those that can be written once more. Want of memory is also the answer where there are 2^32 terms.
pub fn writable_terms(terms: &Terms) -> Result<Vec<Option<u32>>, NoMemory>
    ensures many { IfOk result (λ copies. length copies.items ≡ length terms.now) }
    ensures tells { IfOk result (λ copies. TellWritable terms.now copies.items) }
{
    let sorted = sorted_terms(terms)?;
    let Ok(count) = u32::try_from(terms.len()) else {
        return Err(NoMemory);
    };
    let mut again = Terms::new(terms.allocator());
    let mut copies = Vec::new(terms.allocator());
    for number in 0..count {
        let copy = copied(&mut again, terms, sorted[number as usize], &copies, number)?;
        copies.push(copy)?;
    }
    Ok(copies)
}
