//! From which names clauses are reached.
ghost use Rattle.std.specs.Prelude.{◌≡◌, ℕ, suc, length, IfOk};
ghost use Rattle.wy_graph.specs.reach.Reach as reach;
ghost use Rattle.wy_graph.specs.reach.Walks as spec;

use crate::closure::{Clause, close};
use crate::reach::arrows::small;
use crate::reach::entries::Entry;
use std::alloc::{AllocError, Global};
use wy_items::Items;

// Clauses are reached from a name that has some, or from whose names they are.
fn clause_of(alloc: Global, head: u32, entry: &Entry) -> Result<Clause, AllocError>
    ensures value { IfOk result (λ c. c ≡ spec.clause_of head entry.now) }
{
    let mut body = Items::new(alloc);
    if !entry.has_clauses {
        let names = Items::from_slice(alloc, entry.names.as_slice())?;
        body.push(names)?;
    }
    Ok(Clause { head, body })
}

fn clauses_of(alloc: Global, entries: &[Entry]) -> Result<Vec<Clause>, AllocError>
    ensures value { IfOk result (λ made. made.items ≡ spec.clauses_of 0 entries.now) }
{
    let mut made = Vec::new(alloc);
    for (number, entry) in entries.iter().enumerate() {
        let head = small(number)?;
        let clause = clause_of(alloc, head, entry)?;
        made.push(clause)?;
    }
    Ok(made)
}

/// From which names clauses are reached, through names too. Linear in what they mention.
pub fn constrained(alloc: Global, entries: &[Entry]) -> Result<Items<bool>, AllocError>
    ensures value { IfOk result (λ marks. (n : ℕ) → spec.mark_at marks n ≡ reach.reaches_clauses entries.now (suc (length entries.now)) n) }
{
    let clauses = clauses_of(alloc, entries)?;
    close(alloc, entries.len(), clauses.as_slice())
}
