//! Which conjuncts and parts have a value: the least set that is closed under what they ask.
ghost use Rattle.std.specs.Prelude.{◌≡◌, ℕ, length, true, false, IfOk};
ghost use Rattle.wy_subtype.specs.Known.{WideOnly, IsKnown};
ghost use Rattle.wy_subtype.specs.Marks.{part_marks, AreSound, AreClosedBy};
ghost use Rattle.wy_canon.specs.wy_types.Asks.{HasValue};
ghost use Rattle.wy_canon.specs.wy_types.Membership.{member};
ghost use Rattle.wy_canon.specs.wy_types.Ranked.{IsRanked};
ghost use Rattle.wy_canon.specs.wy_types.Reach.{IsWide};
ghost use Rattle.wy_canon.specs.wy_types.Shape.{part_in};
ghost use Rattle.wy_canon.specs.wy_value.Datum.{Datum};

use crate::clausal::{clauses_of, part_count, total};
use crate::marks::{marks_from, part_marks};
use crate::reach::{Added, Reach, reach_of};
use std::alloc::{AllocError, Global};
use wy_canon::{Signed, Table, TypeFault};
use wy_graph::closure::{close, mark_at};
use wy_items::Items;

// The marks of all conjuncts with a value, by a work list over the clauses of what was reached.
fn marks_of(
    alloc: Global,
    _table: &Table,
    _depth: u32,
    _first: &[Signed<u32>],
    reach: &Reach,
) -> Result<Items<bool>, AllocError>
    requires ranked { (rank : ℕ → ℕ) × IsRanked _table.now rank _depth }
    requires known { IsKnown _table.now _depth _first.now reach.now }
    ensures sound { IfOk result (AreSound _table.now _depth reach.now.conjuncts) }
    ensures closed { IfOk result (λ marks. AreClosedBy (part_marks marks reach.now.heads) marks reach.now.asks (length reach.now.asks)) }
{
    let base = part_count(reach)?;
    let count = total(base as usize, reach.asks.len())?;
    let clauses = clauses_of(alloc, base, reach)?;
    let all = close(alloc, count, clauses.as_slice())?;
    let marks = marks_from(alloc, all.as_slice(), base as usize)?;
    Ok(marks)
}

/// The marks of all conjuncts with a value.
pub fn values(
    alloc: Global,
    table: &Table,
    depth: u32,
    first: &[Signed<u32>],
    reach: &Reach,
) -> Result<Items<bool>, TypeFault>
    requires ranked { (rank : ℕ → ℕ) × IsRanked table.now rank depth }
    requires known { IsKnown table.now depth first.now reach.now }
    ensures sound { IfOk result (AreSound table.now depth reach.now.conjuncts) }
    ensures closed { IfOk result (λ marks. AreClosedBy (part_marks marks reach.now.heads) marks reach.now.asks (length reach.now.asks)) }
    ensures wide { WideOnly result ⊥ }
{
    match marks_of(alloc, table, depth, first, reach) {
        Ok(marks) => Ok(marks),
        Err(_) => Err(TypeFault::NoMemory),
    }
}

/// Whether some datum is in the part. Wide exactly where the question about the part is.
pub fn has_value(
    alloc: Global,
    table: &Table,
    depth: u32,
    part: &[Signed<u32>],
) -> Result<bool, TypeFault>
    requires ranked { (rank : ℕ → ℕ) × IsRanked table.now rank depth }
    ensures sound { IfOk result (λ b. b ≡ true → HasValue table.now depth part.now) }
    ensures complete { IfOk result (λ b. b ≡ false → (d : Datum) → part_in (member table.now depth d) part.now ≡ true → ⊥) }
    ensures wide { WideOnly result (IsWide table.now depth part.now) }
    ensures narrow { IfOk result (λ b. IsWide table.now depth part.now → ⊥) }
{
    let Added { reach, number } = reach_of(alloc, table, depth, part)?;
    let marks = values(alloc, table, depth, part, &reach)?;
    let held = part_marks(alloc, marks.as_slice(), reach.heads.as_slice())?;
    Ok(mark_at(held.as_slice(), number as usize))
}
