//! Which terms of a list are sorted throughout.
ghost use Rattle.std.specs.Prelude.{◌≡◌, ◌<◌, ◌↔◌, length, IfOk, IsTrue};
ghost use Rattle.wy_term_subst.specs.sorted.Sorted.{IsSorted};
ghost use Rattle.wy_term.specs.Nodes.{tree_at};
ghost use Rattle.wy_prove_writable.specs.sorted.Sorts.{MarkSorted};

use crate::sorted::places::are_parts_sorted;
use wy_term::{NoMemory, Terms};

// Whether a term is sorted throughout, where the terms before it are marked.
fn is_sorted(terms: &Terms, marks: &[bool], number: u32) -> bool
    requires within { number < length terms.now }
    requires many { length marks.now ≡ number }
    requires marks { MarkSorted terms.now marks.now }
    ensures exactly { IsTrue result ↔ IsSorted (tree_at terms.now number) }
{
    are_parts_sorted(terms, marks, terms.node(number))
}

/// A mark for each term of a list, whether its parts are of the sorts that their places want, and theirs, in time linear in the
/// terms and their parts. Want of memory is also the answer where there are 2^32 terms.
pub fn sorted_terms(terms: &Terms) -> Result<Vec<bool>, NoMemory>
    ensures many { IfOk result (λ marks. length marks.items ≡ length terms.now) }
    ensures marks { IfOk result (λ marks. MarkSorted terms.now marks.items) }
{
    let Ok(count) = u32::try_from(terms.len()) else {
        return Err(NoMemory);
    };
    let mut marks = Vec::new(terms.allocator());
    for number in 0..count {
        let sorted = is_sorted(terms, &marks, number);
        marks.push(sorted)?;
    }
    Ok(marks)
}
