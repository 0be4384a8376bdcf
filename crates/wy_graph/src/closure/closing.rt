//! Marks by a work list.
ghost use Rattle.std.specs.Prelude.{◌≡◌, ◌+◌, ◌≤◌, ◌++◌, ◌∷◌, ℕ, [], length, IfOk, OnOk};
ghost use Rattle.wy_graph.specs.closure.Closure.{AreMet, HaveHeads, IsClosed, IsPending, IsReached, number_at, waiting};
ghost use Rattle.wy_graph.specs.closure.Index.{IsIndex};
ghost use Rattle.wy_graph.specs.closure.Work.{below};

use crate::closure::clauses::Clause;
use crate::closure::index::index_of;
use crate::closure::marks::{first_unmet, mark_at, no_marks};
use std::alloc::{AllocError, Global};
use wy_items::{Items, at};

// The numbers below this one.
fn numbers_below(alloc: Global, count: usize) -> Result<Items<usize>, AllocError>
    ensures value { IfOk result (λ made. made ≡ below count) }
{
    let mut made = Items::new(alloc);
    for number in 0..count {
        made.push(number)?;
    }
    Ok(made)
}

// Zero, so many times.
#[tactic(auto, using(crate::proofs::closure_lemmas::MetLemmas::zeros_more))]
fn zeros(alloc: Global, count: usize) -> Result<Items<usize>, AllocError>
    ensures count { IfOk result (λ made. length made ≡ count) }
    ensures value { IfOk result (λ made. (n : ℕ) → number_at made n ≡ 0) }
{
    let mut made: Items<usize> = Items::new(alloc);
    for number in 0..count {
        made.push(0)?;
    }
    Ok(made)
}

// The number at this place, if there is one, or 0.
fn noted_at(numbers: &[usize], place: usize) -> usize
    ensures value { result ≡ number_at numbers.now place }
{
    match numbers.get(place) {
        None => 0,
        Some(number) => *number,
    }
}

// Reads the clause with this number, which was due: its head is marked where its body is met, and
// then the clauses that mention the head are due. It looks at no list of a body again that was met.
fn read_clause(
    alloc: Global,
    clauses: &[Clause],
    asking: &[Items<usize>],
    marks: &mut Items<bool>,
    due: &mut Items<usize>,
    met: &mut Items<usize>,
    number: usize,
) -> Result<(), AllocError>
    requires heads { HaveHeads (length marks.old) clauses.now }
    requires index { IsIndex clauses.now asking.now }
    requires sizes { length asking.now ≡ length marks.old }
    requires reached { IsReached clauses.now marks.old }
    requires pending { IsPending clauses.now marks.old (due.old ++ number ∷ []) }
    requires met { AreMet clauses.now marks.old met.old }
    requires each { length met.old ≡ length clauses.now }
    ensures count { length marks.new ≡ length marks.old }
    ensures met { OnOk result (AreMet clauses.now marks.new met.new) }
    ensures each { length met.new ≡ length met.old }
    ensures reached { OnOk result (IsReached clauses.now marks.new) }
    ensures pending { OnOk result (IsPending clauses.now marks.new due.new) }
    ensures less { OnOk result (waiting marks.new asking.now + length due.new ≤ waiting marks.old asking.now + length due.old) }
{
    let clause = match at(clauses, number) {
        None => return Ok(()),
        Some(clause) => clause,
    };
    let head = clause.head as usize;
    if mark_at(marks.as_slice(), head) {
        return Ok(());
    }
    let known = noted_at(met.as_slice(), number);
    let first = first_unmet(marks.as_slice(), clause.body.as_slice(), known);
    met.set(number, first);
    if first < clause.body.len() {
        return Ok(());
    }
    marks.set(head, true);
    match at(asking, head) {
        None => Ok(()),
        Some(waiting) => {
            let more = Items::from_slice(alloc, waiting.as_slice())?;
            due.append(more)?;
            Ok(())
        }
    }
}

/// The least set of numbers below `count` that is closed under the clauses, as a mark for each
/// number. Each clause is read at most once more than numbers that it mentions get a mark, and goes on
/// at the first list of its body that wasn't met: unit propagation in time linear in all that the
/// clauses mention, but for the numbers of one list, and in as much memory.
pub fn close(alloc: Global, count: usize, clauses: &[Clause]) -> Result<Items<bool>, AllocError>
    requires heads { HaveHeads count clauses.now }
    ensures count { IfOk result (λ marks. length marks ≡ count) }
    ensures reached { IfOk result (λ marks. IsReached clauses.now marks) }
    ensures closed { IfOk result (λ marks. IsClosed clauses.now marks) }
{
    let asking = index_of(alloc, count, clauses)?;
    let mut marks = no_marks(alloc, count)?;
    let mut met = zeros(alloc, clauses.len())?;
    let mut due = numbers_below(alloc, clauses.len())?;
    'work: loop {
        let number = match due.pop() {
            None => return Ok(marks),
            Some(number) => number,
        };
        read_clause(
            alloc,
            clauses,
            asking.as_slice(),
            &mut marks,
            &mut due,
            &mut met,
            number,
        )?;
    }
}
