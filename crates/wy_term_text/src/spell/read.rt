//! Terms and formulas read from their texts.
ghost use Rattle.std.specs.Prelude.{◌≡◌, ◌<◌, ◌≤◌, ◌⊎◌, ℕ, IfOk, IfSome, MatchOption, OnErr, IfNone, length, All, map, reverse};
ghost use Rattle.wy_term.specs.Nodes.{tree_at};
ghost use Rattle.wy_term.specs.Sorts.{int_sort, val_sort, formula_sort};
ghost use Rattle.wy_term_text.specs.spell.Made.{IsSpelled, SpellsNone, IsOnly, SpellsNoTerm, IsOnlyTerm};
ghost use Rattle.wy_term_text.specs.spell.Todo.{Refuses};
ghost use Rattle.wy_term_text.specs.spell.Done.{IsEnded, NotEnded, trees, Blocks, Turns, Puts};
ghost use Rattle.wy_term_text.specs.spell.View.{seen, sort_seen};

use crate::spell::expand::expanded;
use crate::spell::root::make;
use crate::spell::work::{Sort, Task};
use std::alloc::Global;
use wy_term::{NoMemory, Terms};

/// The Int term or Val term that the text spells, each node folded as it is made, and None exactly where the text spells
/// neither. It takes time linear in the text, beside what folding takes. Older numbers name what they named, and at any
/// other answer the list is as it was.
#[tactic(auto, using(crate::proofs::spell_lemmas::OneSort::sort_steps))]
pub fn read_term(terms: &mut Terms, text: &[u8]) -> Result<Option<u32>, NoMemory>
    ensures spells { IfOk result (λ o. IfSome o (λ t. IsSpelled int_sort text.now (tree_at terms.new t) ⊎ IsSpelled val_sort text.now (tree_at terms.new t))) }
    ensures exact { IfOk result (λ o. MatchOption o (SpellsNoTerm text.now) (λ t. IsOnlyTerm text.now (tree_at terms.new t))) }
    ensures within { IfOk result (λ o. IfSome o (λ t. t < length terms.new)) }
    ensures kept { (t : ℕ) → t < length terms.old → tree_at terms.new t ≡ tree_at terms.old t }
    ensures grows { length terms.old ≤ length terms.new }
    ensures refused { IfOk result (λ o. IfNone o (length terms.new ≡ length terms.old)) }
    ensures no_memory { OnErr result (length terms.new ≡ length terms.old) }
{
    match spelled(terms, Sort::Int, text)? {
        Some(term) => Ok(Some(term)),
        None => match spelled(terms, Sort::Val, text)? {
            Some(term) => Ok(Some(term)),
            None => Ok(None),
        },
    }
}

/// The Int term that the text spells; likewise.
pub fn read_int_term(terms: &mut Terms, text: &[u8]) -> Result<Option<u32>, NoMemory>
    ensures spells { IfOk result (λ o. IfSome o (λ t. IsSpelled int_sort text.now (tree_at terms.new t))) }
    ensures exact { IfOk result (λ o. MatchOption o (SpellsNone int_sort text.now) (λ t. IsOnly int_sort text.now (tree_at terms.new t))) }
    ensures within { IfOk result (λ o. IfSome o (λ t. t < length terms.new)) }
    ensures kept { (t : ℕ) → t < length terms.old → tree_at terms.new t ≡ tree_at terms.old t }
    ensures grows { length terms.old ≤ length terms.new }
    ensures refused { IfOk result (λ o. IfNone o (length terms.new ≡ length terms.old)) }
    ensures no_memory { OnErr result (length terms.new ≡ length terms.old) }
{
    spelled(terms, Sort::Int, text)
}

/// The formula that the text spells; likewise.
pub fn read_formula(terms: &mut Terms, text: &[u8]) -> Result<Option<u32>, NoMemory>
    ensures spells { IfOk result (λ o. IfSome o (λ t. IsSpelled formula_sort text.now (tree_at terms.new t))) }
    ensures exact { IfOk result (λ o. MatchOption o (SpellsNone formula_sort text.now) (λ t. IsOnly formula_sort text.now (tree_at terms.new t))) }
    ensures within { IfOk result (λ o. IfSome o (λ t. t < length terms.new)) }
    ensures kept { (t : ℕ) → t < length terms.old → tree_at terms.new t ≡ tree_at terms.old t }
    ensures grows { length terms.old ≤ length terms.new }
    ensures refused { IfOk result (λ o. IfNone o (length terms.new ≡ length terms.old)) }
    ensures no_memory { OnErr result (length terms.new ≡ length terms.old) }
{
    spelled(terms, Sort::Formula, text)
}

// The term of a sort that the text spells. At any other answer the list is as it was.
fn spelled(terms: &mut Terms, sort: Sort, text: &[u8]) -> Result<Option<u32>, NoMemory>
    ensures spells { IfOk result (λ o. IfSome o (λ t. IsSpelled (sort_seen sort) text.now (tree_at terms.new t))) }
    ensures exact { IfOk result (λ o. MatchOption o (SpellsNone (sort_seen sort) text.now) (λ t. IsOnly (sort_seen sort) text.now (tree_at terms.new t))) }
    ensures within { IfOk result (λ o. IfSome o (λ t. t < length terms.new)) }
    ensures kept { (t : ℕ) → t < length terms.old → tree_at terms.new t ≡ tree_at terms.old t }
    ensures grows { length terms.old ≤ length terms.new }
    ensures refused { IfOk result (λ o. IfNone o (length terms.new ≡ length terms.old)) }
    ensures no_memory { OnErr result (length terms.new ≡ length terms.old) }
{
    let mark = terms.mark();
    match read(terms, sort, text) {
        Ok(Some(term)) => Ok(Some(term)),
        Ok(None) => {
            terms.back_to(mark);
            Ok(None)
        }
        Err(e) => {
            terms.back_to(mark);
            Err(e)
        }
    }
}

// The same, but the terms that were made stay. It works on a list of what is still to be read.
fn read(terms: &mut Terms, sort: Sort, text: &[u8]) -> Result<Option<u32>, NoMemory>
    ensures spells { IfOk result (λ o. IfSome o (λ t. IsSpelled (sort_seen sort) text.now (tree_at terms.new t))) }
    ensures exact { IfOk result (λ o. MatchOption o (SpellsNone (sort_seen sort) text.now) (λ t. IsOnly (sort_seen sort) text.now (tree_at terms.new t))) }
    ensures within { IfOk result (λ o. IfSome o (λ t. t < length terms.new)) }
    ensures kept { (t : ℕ) → t < length terms.old → tree_at terms.new t ≡ tree_at terms.old t }
    ensures grows { length terms.old ≤ length terms.new }
{
    let alloc = terms.allocator();
    let mut todo = Vec::new(alloc);
    let mut done = Vec::new(alloc);
    let mut rest = text;
    todo.push(Task::Term(sort))?;
    for _turn in 0..u64::MAX {
        let Some(task) = todo.pop() else {
            return Ok(ended(rest, &done));
        };
        match turn(terms, &mut todo, &mut done, rest, task)? {
            None => return Ok(None),
            Some(left) => rest = left,
        }
    }
    Err(NoMemory)
}

// Does the thing that comes first, and gives the text that is left; None where it can't be done.
#[tactic(auto, using(crate::proofs::spell_lemmas::TurnLemmas::turn_steps))]
fn turn<'a>(
    terms: &mut Terms,
    todo: &mut Vec<Task>,
    done: &mut Vec<u32>,
    text: &'a [u8],
    task: Task,
) -> Result<Option<&'a [u8]>, NoMemory>
    requires { All (λ k. k < length terms.old) done.old.items }
    ensures value { IfOk result (λ o. MatchOption o (Blocks (seen task) text.now (trees terms.old done.old.items) (map seen (reverse todo.old.items)))
        (λ left. Turns (seen task) text.now (trees terms.old done.old.items) (map seen (reverse todo.old.items)) (map seen (reverse todo.new.items)) left.now (trees terms.new done.new.items))) }
    ensures below { IfOk result (λ o. IfSome o (λ left. All (λ k. k < length terms.new) done.new.items)) }
    ensures kept { (t : ℕ) → t < length terms.old → tree_at terms.new t ≡ tree_at terms.old t }
    ensures grows { length terms.old ≤ length terms.new }
{
    match task {
        Task::Root(root, base) => {
            if !make(terms, done, root, base)? {
                return Ok(None);
            }
            Ok(Some(text))
        }
        task => put(terms.allocator(), todo, task, text, done.len()),
    }
}

// Puts what stands for a thing, where so many terms are done, on the list in its place.
#[tactic(auto, using(crate::proofs::spell_lemmas::TurnLemmas::put_steps))]
fn put<'a>(
    alloc: Global,
    todo: &mut Vec<Task>,
    task: Task,
    text: &'a [u8],
    done: usize,
) -> Result<Option<&'a [u8]>, NoMemory>
    ensures value { IfOk result (λ o. MatchOption o (Refuses (seen task) text.now done)
        (λ left. Puts (seen task) text.now done (map seen (reverse todo.old.items)) (map seen (reverse todo.new.items)) left.now)) }
{
    match expanded(alloc, task, text, done)? {
        None => Ok(None),
        Some((mut tasks, left)) => {
            tasks.reverse();
            todo.append(&mut tasks)?;
            Ok(Some(left))
        }
    }
}

// The one term that is done, where the text is at its end.
fn ended(rest: &[u8], done: &[u32]) -> Option<u32>
    ensures value { MatchOption result (NotEnded rest.now done.now) (λ t. IsEnded rest.now done.now t) }
{
    match (rest, done) {
        ([], [term]) => Some(*term),
        _ => None,
    }
}
