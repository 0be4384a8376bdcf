//! The verdicts on all conditions, by several workers.
ghost use Rattle.std.specs.Prelude.{◌≡◌, ◌≤◌, ◌++◌, List, All, length, map, IfOk};
ghost use Rattle.std.specs.Thread.{IsSync};
ghost use Rattle.wy_batch.specs.Judged.{conditions_in, AreJudged};
ghost use Rattle.wy_batch.specs.Known.{AreKnown, Known};
ghost use Rattle.wy_batch.specs.Seen.{known, NameTerms};
ghost use Rattle.wy_batch.specs.Working.{IsDone, IsTask};
ghost use Rattle.wy_claim.specs.Seats.{fresh, met};
ghost use Rattle.wy_cert.specs.Steps.{NameTheirTerms, certificates_of};
ghost use Rattle.wy_check.specs.Within.{IsWithin};

use crate::gate::Gate;
use crate::ordering::in_order;
use crate::verdict::Verdict;
use crate::working::work;
use std::alloc::Global;
use std::thread::{Threads, join};
use wy_cert::Certs;
use wy_claim::{Claims, MAX_PIECES, MAX_SEATS, Seat};
use wy_term::{Conds, NoMemory};

// A seat that has ended, and the verdicts on what it drew.
type Worked = Result<(Seat, Vec<(u32, Verdict)>), NoMemory>;

/// What is known of each condition, in order, found by so many workers side by side, where these certificates are supplied, each for the
/// condition with its number, from 1: the first bad step of the first certificate for it, if that isn't valid; and, unless it is valid,
/// what its search at this budget of leaves ends in. It is the same for every number of workers. The gate is told of each condition.
/// Want of memory of one worker is that of all: the others are joined first, and nothing is kept.
/// With one worker it takes what checking the certificates and searching the conditions take, beside that of copying the terms. Each worker
/// has an arena and an index of the certificates of its own.
pub fn discharge<R: Threads + Sync, G: Gate + Sync>(
    rt: &R,
    alloc: Global,
    conds: &Conds,
    certs: &Certs,
    budget: u64,
    workers: u32,
    gate: &G,
) -> Result<Vec<Verdict>, NoMemory>
    requires conds { All (IsWithin (length conds.now.terms)) conds.now.list.items }
    requires certs { NameTheirTerms certs.now }
    requires few { length conds.now.list.items ≤ MAX_PIECES }
    requires workers { (1 ≤ workers) × (workers ≤ MAX_SEATS) }
    ensures known { IfOk result (λ vs. AreKnown (certificates_of certs.now) budget 1 (conditions_in conds.now) (map known vs.items)) }
    ensures same { (ks : List Known) → AreKnown (certificates_of certs.now) budget 1 (conditions_in conds.now) ks → IfOk result (λ vs. map known vs.items ≡ ks) }
    ensures named { IfOk result (λ vs. NameTerms vs.items) }
    ensures count { IfOk result (λ vs. length vs.items ≡ length conds.now.list.items) }
{
    let verdicts = all_judged(rt, alloc, conds, certs, budget, workers, gate)?;
    Ok(verdicts)
}

// All that is known of each condition.
fn all_judged<R: Threads + Sync, G: Gate + Sync>(
    rt: &R,
    alloc: Global,
    conds: &Conds,
    certs: &Certs,
    budget: u64,
    workers: u32,
    gate: &G,
) -> Result<Vec<Verdict>, NoMemory>
    requires conds { All (IsWithin (length conds.now.terms)) conds.now.list.items }
    requires certs { NameTheirTerms certs.now }
    requires few { length conds.now.list.items ≤ MAX_PIECES }
    requires workers { (1 ≤ workers) × (workers ≤ MAX_SEATS) }
    ensures judged { IfOk result (λ vs. AreJudged (certificates_of certs.now) budget 1 (conditions_in conds.now) vs.items) }
{
    let count = conds.list.len();
    let Ok((claims, seat)) = Claims::new(alloc, count as u32, workers) else {
        return Err(NoMemory);
    };
    let (seat, drawn) = worked(
        rt, alloc, conds, certs, budget, &claims, seat, workers, gate,
    )?;
    claims.close(seat);
    in_order(alloc, count, drawn)
}

// The verdicts of so many workers, each in a thread of its own, with the seat that met all others.
fn worked<R: Threads + Sync, G: Gate + Sync>(
    rt: &R,
    alloc: Global,
    conds: &Conds,
    certs: &Certs,
    budget: u64,
    claims: &Claims,
    mut seat: Seat,
    workers: u32,
    gate: &G,
) -> Worked
    requires task { IsTask conds.now certs.now claims.now }
    requires workers { 1 ≤ workers }
    requires seat { seat ≡ fresh claims.now workers }
    ensures done { IfOk result (λ done. IsDone conds.now certs.now budget claims.now workers done.0 done.1.items) }
{
    if workers == 1 {
        let verdicts = work(alloc, conds, certs, budget, claims, &mut seat, gate)?;
        return Ok((seat, verdicts));
    }
    let half = workers / 2;
    let rest = workers - half;
    let Ok(other) = claims.split(alloc, &mut seat, half) else {
        return Err(NoMemory);
    };
    let (first, second) = join(
        rt,
        move || -> Worked
            requires { IsSync R.row × IsSync G.row × IsTask conds.now certs.now claims.now × (1 ≤ rest)
                × (seat ≡ fresh claims.now rest) }
            ensures { IfOk result (λ done. IsDone conds.entry.now certs.entry.now budget claims.entry.now rest done.0 done.1.items) }
        { worked(rt, alloc, conds, certs, budget, claims, seat, rest, gate) },
        move || -> Worked
            requires { IsSync R.row × IsSync G.row × IsTask conds.now certs.now claims.now × (1 ≤ half)
                × (other ≡ fresh claims.now half) }
            ensures { IfOk result (λ done. IsDone conds.entry.now certs.entry.now budget claims.entry.now half done.0 done.1.items) }
        { worked(rt, alloc, conds, certs, budget, claims, other, half, gate) },
    );
    let (seat, verdicts) = first?;
    let (other, more) = second?;
    both(claims, seat, verdicts, other, more)
}

// One seat that met the other, and the verdicts of both.
fn both(
    claims: &Claims,
    mut seat: Seat,
    mut verdicts: Vec<(u32, Verdict)>,
    other: Seat,
    mut more: Vec<(u32, Verdict)>,
) -> Worked
    requires own { seat.counter ≡ claims.now }
    requires other { other.counter ≡ claims.now }
    ensures seat { IfOk result (λ done. done.0 ≡ met seat other) }
    ensures verdicts { IfOk result (λ done. done.1.items ≡ verdicts.items ++ more.items) }
{
    claims.meet(&mut seat, other);
    verdicts.append(&mut more)?;
    Ok((seat, verdicts))
}
