//! Inclusion of terms.
ghost use Rattle.std.specs.Prelude.{◌≡◌, ℕ, [], true, false, IfOk};
ghost use Rattle.wy_canon.specs.wy_types.Conjuncts as conjuncts;
ghost use Rattle.wy_subtype.specs.Known.{WideOnly};
ghost use Rattle.wy_canon.specs.wy_types.Membership.{member};
ghost use Rattle.wy_canon.specs.wy_types.Ranked.{IsRanked};
ghost use Rattle.wy_canon.specs.wy_types.Reach.{IsWide, outside};
ghost use Rattle.wy_canon.specs.wy_value.Datum.{Datum};

use crate::values::has_value;
use std::alloc::{AllocError, Global};
use wy_canon::{Signed, Table, TypeFault, with_sides};
use wy_items::Items;

// What is in `a` and not in `b`.
fn outside_part(
    alloc: Global,
    table: &Table,
    depth: u32,
    a: u32,
    b: u32,
) -> Result<Items<Signed<u32>>, AllocError>
    ensures value { IfOk result (λ part. part ≡ outside table.now depth a b) }
{
    let part = with_sides(table, depth, Items::new(alloc), true, true, a)?;
    with_sides(table, depth, part, true, false, b)
}

/// Whether every datum in `a` is in `b`, by upward readings. Wide exactly where the question is.
pub fn is_within(
    alloc: Global,
    table: &Table,
    depth: u32,
    a: u32,
    b: u32,
) -> Result<bool, TypeFault>
    requires ranked { (rank : ℕ → ℕ) × IsRanked table.now rank depth }
    ensures sound { IfOk result (λ r. r ≡ true → (d : Datum) → member table.now depth d true a ≡ true → member table.now depth d true b ≡ true) }
    ensures complete { IfOk result (λ r. r ≡ false → (d : Datum) × (member table.now depth d true a ≡ true) × (member table.now depth d true b ≡ false)) }
    ensures wide { WideOnly result (IsWide table.now depth (outside table.now depth a b)) }
    ensures narrow { IfOk result (λ r. IsWide table.now depth (outside table.now depth a b) → ⊥) }
{
    let part = outside_part(alloc, table, depth, a, b)?;
    let found = has_value(alloc, table, depth, part.as_slice())?;
    Ok(!found)
}

/// Whether some datum is in the term, by its upward reading. Wide exactly where the question is.
pub fn is_inhabited(alloc: Global, table: &Table, depth: u32, term: u32) -> Result<bool, TypeFault>
    requires ranked { (rank : ℕ → ℕ) × IsRanked table.now rank depth }
    ensures sound { IfOk result (λ r. r ≡ true → (d : Datum) × (member table.now depth d true term ≡ true)) }
    ensures complete { IfOk result (λ r. r ≡ false → (d : Datum) → member table.now depth d true term ≡ false) }
    ensures wide { WideOnly result (IsWide table.now depth (conjuncts.with_sides table.now depth [] true true term)) }
    ensures narrow { IfOk result (λ r. IsWide table.now depth (conjuncts.with_sides table.now depth [] true true term) → ⊥) }
{
    let part = with_sides(table, depth, Items::new(alloc), true, true, term)?;
    let found = has_value(alloc, table, depth, part.as_slice())?;
    Ok(found)
}
