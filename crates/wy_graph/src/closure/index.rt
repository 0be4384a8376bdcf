//! The clauses that mention each number.
ghost use Rattle.std.specs.Prelude.{◌≡◌, ℕ, [], length, IfOk, OnOk};
ghost use Rattle.wy_graph.specs.closure.Index as index;
ghost use Rattle.wy_graph.specs.closure.Index.{IsIndex};

use crate::closure::clauses::Clause;
use std::alloc::{AllocError, Global};
use wy_items::Items;

// So many lists, all empty.
fn no_lists(alloc: Global, count: usize) -> Result<Vec<Items<usize>>, AllocError>
    ensures count { IfOk result (λ made. length made.items ≡ count) }
{
    let mut made: Vec<Items<usize>> = Vec::new(alloc);
    for number in 0..count {
        made.push(Items::new(alloc))?;
    }
    Ok(made)
}

// Puts the clause behind those that mention the number.
fn note(asking: &mut Vec<Items<usize>>, number: usize, clause: usize) -> Result<(), AllocError>
    ensures value { OnOk result (asking.new.items ≡ index.with_clause asking.old.items number clause) }
{
    if number < asking.len() {
        let list = &mut asking[number];
        list.push(clause)?;
    }
    Ok(())
}

fn note_numbers(
    asking: &mut Vec<Items<usize>>,
    numbers: &[u32],
    clause: usize,
) -> Result<(), AllocError>
    ensures value { OnOk result (asking.new.items ≡ index.with_numbers asking.old.items numbers.now clause) }
{
    for number in numbers {
        note(asking, *number as usize, clause)?;
    }
    Ok(())
}

fn note_body(
    asking: &mut Vec<Items<usize>>,
    body: &[Items<u32>],
    clause: usize,
) -> Result<(), AllocError>
    ensures value { OnOk result (asking.new.items ≡ index.with_body asking.old.items body.now clause) }
{
    for numbers in body {
        note_numbers(asking, numbers.as_slice(), clause)?;
    }
    Ok(())
}

/// For each of so many numbers the clauses that mention it, in time linear in these.
pub fn index_of(
    alloc: Global,
    count: usize,
    clauses: &[Clause],
) -> Result<Vec<Items<usize>>, AllocError>
    ensures count { IfOk result (λ made. length made.items ≡ count) }
    ensures index { IfOk result (λ made. IsIndex clauses.now made.items) }
{
    let mut asking = no_lists(alloc, count)?;
    for (number, clause) in clauses.iter().enumerate() {
        note_body(&mut asking, clause.body.as_slice(), number)?;
    }
    Ok(asking)
}
