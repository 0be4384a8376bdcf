//! What one worker does.
ghost use Rattle.std.specs.Prelude.{◌≡◌, ◌≤◌, All, false, length, IfOk};
ghost use Rattle.wy_batch.specs.Judged.{conditions_in, AreVerdictsAt, DrewMore};
ghost use Rattle.wy_cert.specs.Steps.{NameTheirTerms, certificates_of};
ghost use Rattle.wy_check.specs.Within.{IsWithin};
ghost use Rattle.wy_batch.specs.Working.{numbers_of, seat_after};

use crate::bench::bare_bench;
use crate::gate::Gate;
use crate::index::index_of;
use crate::judging::judged;
use crate::verdict::Verdict;
use std::alloc::Global;
use wy_cert::Certs;
use wy_claim::{Claims, MAX_PIECES, Seat};
use wy_term::{Conds, NoMemory};

/// Draws conditions until none is left, and judges each, with searches of at most `budget` leaves: the verdicts in the order in which they
/// were drawn, each with the number of its condition, from 0, which are exactly the numbers that the seat drew in this call; the seat has
/// ended. The certificates are each for the condition with its number, from 1, and the first counts. The gate is told of each condition.
/// At want of memory the numbers that were drawn stay in the seat's list. The terms of one condition at a time are copied into an arena
/// of the worker's own. No call waits for another thread.
pub fn work<G: Gate + Sync>(
    alloc: Global,
    conds: &Conds,
    certs: &Certs,
    budget: u64,
    claims: &Claims,
    seat: &mut Seat,
    gate: &G,
) -> Result<Vec<(u32, Verdict)>, NoMemory>
    requires conds { All (IsWithin (length conds.now.terms)) conds.now.list.items }
    requires certs { NameTheirTerms certs.now }
    requires own { seat.old.counter ≡ claims.now }
    requires not_ended { seat.old.ended ≡ false }
    requires pieces { claims.now.pieces ≡ length conds.now.list.items }
    requires few { length conds.now.list.items ≤ MAX_PIECES }
    ensures drawn { IfOk result (λ vs. seat.new ≡ seat_after seat.old (numbers_of vs.items)) }
    ensures verdicts { IfOk result (λ vs. AreVerdictsAt (certificates_of certs.now) budget (conditions_in conds.now) vs.items) }
    ensures stay { DrewMore seat.old seat.new }
{
    let places = index_of(alloc, certs)?;
    let mut bench = bare_bench(alloc);
    let mut verdicts = Vec::new(alloc);
    while let Some(number) = claims.draw(seat) {
        gate.pass(number + 1);
        let verdict = judged(&mut bench, &places, conds, certs, budget, number)?;
        verdicts.push((number, verdict))?;
    }
    Ok(verdicts)
}
