//! The verdicts on all conditions, by as many workers as are asked for.
ghost use Rattle.std.specs.Prelude.{◌≡◌, ◌<◌, ◌≤◌, ℕ, List, All, length, map, IfOk};
ghost use Rattle.wy_batch.specs.Judged.{conditions_in};
ghost use Rattle.wy_batch.specs.Known.{AreKnown, Known};
ghost use Rattle.wy_batch.specs.Seen.{known, NameTerms};
ghost use Rattle.wy_cert.specs.Steps.{NameTheirTerms, certificates_of};
ghost use Rattle.wy_check.specs.Within.{IsWithin};
ghost use Rattle.wy_term.specs.Nodes.{tree_at};

use crate::alone::judge_alone;
use crate::discharging::discharge;
use crate::gate::OpenGate;
use crate::verdict::Verdict;
use std::alloc::Global;
use std::thread::Threads;
use wy_cert::Certs;
use wy_claim::{MAX_PIECES, MAX_SEATS};
use wy_term::{Conds, NoMemory};

/// What is known of each condition, in order, as `discharge` says it, and the same for every number of workers: by one worker on the
/// conditions' own terms, so that none is copied, and by several as `discharge` does it. The conditions are as before afterwards.
pub fn judge<R: Threads + Sync>(
    rt: &R,
    alloc: Global,
    conds: &mut Conds,
    certs: &Certs,
    budget: u64,
    workers: u32,
) -> Result<Vec<Verdict>, NoMemory>
    requires conds { All (IsWithin (length conds.old.terms)) conds.old.list.items }
    requires certs { NameTheirTerms certs.now }
    requires few { length conds.old.list.items ≤ MAX_PIECES }
    requires workers { (1 ≤ workers) × (workers ≤ MAX_SEATS) }
    ensures known { IfOk result (λ vs. AreKnown (certificates_of certs.now) budget 1 (conditions_in conds.old) (map known vs.items)) }
    ensures same { (ks : List Known) → AreKnown (certificates_of certs.now) budget 1 (conditions_in conds.old) ks → IfOk result (λ vs. map known vs.items ≡ ks) }
    ensures named { IfOk result (λ vs. NameTerms vs.items) }
    ensures count { IfOk result (λ vs. length vs.items ≡ length conds.old.list.items) }
    ensures list { conds.new.list ≡ conds.old.list }
    ensures length { length conds.new.terms ≡ length conds.old.terms }
    ensures kept { (t : ℕ) → t < length conds.old.terms → tree_at conds.new.terms t ≡ tree_at conds.old.terms t }
{
    if workers == 1 {
        judge_alone(alloc, &mut conds.terms, &conds.list, certs, budget)
    } else {
        discharge(rt, alloc, conds, certs, budget, workers, &OpenGate)
    }
}
