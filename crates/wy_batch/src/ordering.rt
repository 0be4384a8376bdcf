//! Verdicts in the order of the conditions.
ghost use Rattle.std.specs.Prelude.{◌≡◌, ◌<◌, ℕ, List, All, None, Some, length, map, slice_set, IfOk};
ghost use Rattle.wy_batch.specs.Judged.{AreJudged, AreVerdictsAt};
ghost use Rattle.wy_batch.specs.Ordering.{ArePlaced, IsFull};
ghost use Rattle.wy_batch.specs.Working.{numbers_of};
ghost use Rattle.wy_claim.specs.Moments.{EachOnce};
ghost use Rattle.wy_cert.specs.Steps.{Certificates};
ghost use Rattle.wy_term.specs.Condition.{Condition};

use crate::verdict::Verdict;
use std::alloc::Global;
use wy_term::NoMemory;

/// The verdicts in the order of their places, which are those below `count`, each once. In linear time.
pub fn in_order(
    alloc: Global,
    count: usize,
    verdicts: Vec<(u32, Verdict)>,
) -> Result<Vec<Verdict>, NoMemory>
    requires once { EachOnce count (numbers_of verdicts.items) }
    ensures judged { (certs : Certificates) → (budget : ℕ) → (cs : List Condition) → length cs ≡ count → AreVerdictsAt certs budget cs verdicts.items → IfOk result (λ vs. AreJudged certs budget 1 cs vs.items) }
{
    let slots = placed(alloc, count, verdicts)?;
    unwrapped(alloc, slots)
}

// The verdicts at their places.
fn placed(
    alloc: Global,
    count: usize,
    verdicts: Vec<(u32, Verdict)>,
) -> Result<Vec<Option<Verdict>>, NoMemory>
    requires once { EachOnce count (numbers_of verdicts.items) }
    ensures count { IfOk result (λ slots. length slots.items ≡ count) }
    ensures full { IfOk result (λ slots. IsFull slots.items) }
    ensures placed { (certs : Certificates) → (budget : ℕ) → (cs : List Condition) → AreVerdictsAt certs budget cs verdicts.items → IfOk result (λ slots. ArePlaced certs budget cs slots.items) }
{
    let mut slots = no_verdicts(alloc, count)?;
    for (place, verdict) in verdicts {
        put(&mut slots, place as usize, verdict);
    }
    Ok(slots)
}

// Puts a verdict at its place.
fn put(slots: &mut Vec<Option<Verdict>>, place: usize, verdict: Verdict)
    requires { place < length slots.old.items }
    ensures { slots.new.items ≡ slice_set slots.old.items place (Some verdict) }
{
    slots[place] = Some(verdict);
}

// So many places, of which none has a verdict.
fn no_verdicts(alloc: Global, count: usize) -> Result<Vec<Option<Verdict>>, NoMemory>
    ensures count { IfOk result (λ slots. length slots.items ≡ count) }
    ensures none { IfOk result (λ slots. All (λ slot. slot ≡ None) slots.items) }
{
    let mut slots = Vec::new(alloc);
    for _ in 0..count {
        slots.push(None)?;
    }
    Ok(slots)
}

// The verdicts of places that all have one.
fn unwrapped(alloc: Global, slots: Vec<Option<Verdict>>) -> Result<Vec<Verdict>, NoMemory>
    requires full { IsFull slots.items }
    ensures value { IfOk result (λ vs. map Some vs.items ≡ slots.items) }
{
    let mut all = Vec::new(alloc);
    for slot in slots {
        match slot {
            Some(verdict) => all.push(verdict)?,
            None => unreachable!(),
        }
    }
    Ok(all)
}
