//! Which terms test a named type, by a table.
//!
//! Most terms test none, nor do those that they are made of, and these need no walk.
ghost use Rattle.std.specs.Prelude.{◌≡◌, ◌<◌, ◌∷◌, [], ℕ, get_or, length, map, true, false, IfOk};
ghost use Rattle.wy_term.specs.Nodes.{tree_at};
ghost use Rattle.wy_vc_spec.specs.Limits.{is_among, tests_in, tests_in_all};
ghost use Rattle.wy_vc.specs.Tested as spec;

use crate::small::small;
use crate::tests_of_types::{type_of, types_tested};
use wy_term::{NoMemory, Terms};
use wy_term_subst::parts_of;

// Whether a term is marked. One that has no mark counts as marked.
fn is_testing(marks: &[bool], number: u32) -> bool
    ensures value { result ≡ get_or marks.now number true }
{
    match marks.get(number as usize) {
        None => true,
        Some(mark) => *mark,
    }
}

// Whether one of these terms is marked.
fn is_any_testing(marks: &[bool], numbers: &[u32]) -> bool
    ensures none { result ≡ false → (k : ℕ) → is_among numbers.now k ≡ true → get_or marks.now k true ≡ false }
{
    for number in numbers {
        let marked = is_testing(marks, *number);
        if marked {
            return true;
        }
    }
    false
}

// Whether a term tests a named type itself, or one of its parts is marked.
fn tests_any(terms: &Terms, marks: &[bool], number: u32) -> Result<bool, NoMemory>
    requires within { number < length terms.now }
    ensures none { spec.AreQuiet terms.now marks.now → IfOk result (λ b. b ≡ false → tests_in (tree_at terms.now number) ≡ []) }
{
    let node = terms.node(number);
    let own = type_of(node);
    if own.is_some() {
        return Ok(true);
    }
    let parts = parts_of(terms.allocator(), node)?;
    let any = is_any_testing(marks, parts.as_slice());
    Ok(any)
}

/// Of each term, by its number, whether it tests a named type, or a term that it is made of does. Linear in the terms and their parts.
pub fn testing_terms(terms: &Terms) -> Result<Vec<bool>, NoMemory>
    ensures quiet { IfOk result (λ marks. spec.AreQuiet terms.now marks.items) }
{
    let count = small(terms.len())?;
    let mut marks = Vec::new(terms.allocator());
    for number in 0..count {
        let mark = tests_any(terms, marks.as_slice(), number)?;
        marks.push(mark)?;
    }
    Ok(marks)
}

/// The numbers of the named types that a term tests, or terms that it is made of. Where it is marked, linear in how many terms it is made of,
/// else in constant time.
pub fn types_of_root(terms: &Terms, marks: &[bool], root: u32) -> Result<Vec<u32>, NoMemory>
    requires within { root < length terms.now }
    requires quiet { spec.AreQuiet terms.now marks.now }
    ensures value { IfOk result (λ ns. (n : ℕ) → is_among ns.items n ≡ is_among (tests_in_all (map (tree_at terms.now) (root ∷ []))) n) }
{
    let testing = is_testing(marks, root);
    if testing {
        let types = types_tested(terms, &[root])?;
        return Ok(types);
    }
    Ok(Vec::new(terms.allocator()))
}
