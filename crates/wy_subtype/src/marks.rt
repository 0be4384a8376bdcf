//! Marks of what has a value, by number.
ghost use Rattle.std.specs.Prelude.{◌≡◌, IfOk, drop};
ghost use Rattle.wy_subtype.specs.Marks as marking;

use std::alloc::{AllocError, Global};
use wy_graph::closure::any_marked;
use wy_items::Items;

/// The parts with a marked conjunct.
pub fn part_marks(
    alloc: Global,
    marks: &[bool],
    heads: &[Items<u32>],
) -> Result<Items<bool>, AllocError>
    ensures value { IfOk result (λ held. held ≡ marking.part_marks marks.now heads.now) }
{
    let mut held = Items::new(alloc);
    for head in heads {
        held.push(any_marked(marks, head.as_slice()))?;
    }
    Ok(held)
}

/// The marks from this number on.
pub fn marks_from(alloc: Global, marks: &[bool], from: usize) -> Result<Items<bool>, AllocError>
    ensures value { IfOk result (λ made. made ≡ drop from marks.now) }
{
    if from <= marks.len() {
        return Items::from_slice(alloc, &marks[from..]);
    }
    Err(AllocError)
}
