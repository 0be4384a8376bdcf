//! The named types that are mentioned, by a list of what is still to be marked.
ghost use Rattle.std.specs.Prelude.{◌≡◌, ◌++◌, ◌∷◌, [], ◌<◌, ℕ, true, false, nat_le, slice_set, length as count_of, IfOk, OnOk};
ghost use Rattle.wy_vc.specs.Meanings.{tests_at};
ghost use Rattle.wy_vc.specs.Mentioned as spec;

use crate::unfolding::Meaning;
use std::alloc::{AllocError, Global};
use wy_term::NoMemory;

/// Whether a number has a mark. Constant time.
pub fn is_marked(marks: &[bool], number: usize) -> bool
    ensures value { result ≡ spec.marked marks.now number }
{
    match marks.get(number) {
        None => false,
        Some(mark) => *mark,
    }
}

// The named types that the test of this one tests.
fn tests_of(meanings: &[Meaning], number: usize) -> &[u32]
    ensures value { result.now ≡ tests_at meanings.now number }
{
    match meanings.get(number) {
        None => &[],
        Some(meaning) => meaning.tests.as_slice(),
    }
}

// Whether there is no mark for the number.
fn is_past(marks: &[bool], number: usize) -> bool
    ensures value { result ≡ nat_le (count_of marks.now) number }
{
    marks.len() <= number
}

// The number has a mark from now on.
fn set_mark(marks: &mut Vec<bool>, number: usize)
    requires { number < count_of marks.old.items }
    ensures value { marks.new.items ≡ slice_set marks.old.items number true }
{
    marks[number] = true;
}

// Marks this type, which was to be marked, and then those that it tests are to be marked. What is no type has no mark.
fn visit(
    meanings: &[Meaning],
    _begun: &[u32],
    number: u32,
    marks: &mut Vec<bool>,
    todo: &mut Vec<u32>,
) -> Result<(), AllocError>
    requires reaching { spec.IsReaching (tests_at meanings.now) (count_of meanings.now) _begun.now marks.old.items (todo.old.items ++ number ∷ []) }
    ensures reaching { OnOk result (spec.IsReaching (tests_at meanings.now) (count_of meanings.now) _begun.now marks.new.items todo.new.items) }
{
    let index = number as usize;
    let past = is_past(marks.as_slice(), index);
    if past {
        return Ok(());
    }
    let known = is_marked(marks.as_slice(), index);
    if known {
        return Ok(());
    }
    set_mark(marks, index);
    todo.extend_from_slice(tests_of(meanings, index))?;
    Ok(())
}

// None of so many is marked.
fn no_marks(alloc: Global, count: usize) -> Result<Vec<bool>, AllocError>
    ensures count { IfOk result (λ marks. count_of marks.items ≡ count) }
    ensures none { IfOk result (λ marks. (n : ℕ) → spec.marked marks.items n ≡ false) }
{
    let mut marks = Vec::new(alloc);
    for number in 0..count {
        marks.push(false)?;
    }
    Ok(marks)
}

/// A mark for each named type that is one of these or is tested by a type that is marked. Linear in the types, and in what those that are
/// marked test.
pub fn mentioned(alloc: Global, meanings: &[Meaning], begun: &[u32]) -> Result<Vec<bool>, NoMemory>
    ensures count { IfOk result (λ marks. count_of marks.items ≡ count_of meanings.now) }
    ensures value { IfOk result (λ marks. spec.IsReaching (tests_at meanings.now) (count_of meanings.now) begun.now marks.items []) }
{
    let mut marks = no_marks(alloc, meanings.len())?;
    let mut todo = Vec::from_slice(alloc, begun)?;
    for _turn in 0..u64::MAX {
        match todo.pop() {
            None => return Ok(marks),
            Some(number) => visit(meanings, begun, number, &mut marks, &mut todo)?,
        }
    }
    Err(NoMemory)
}
