//! The verdicts on all conditions, by one worker on their own terms.
ghost use Rattle.std.specs.Prelude.{◌≡◌, ◌<◌, ℕ, List, All, length, map, IfOk};
ghost use Rattle.wy_batch.specs.Judged.{AreJudged};
ghost use Rattle.wy_batch.specs.Known.{AreKnown, Known};
ghost use Rattle.wy_batch.specs.Seen.{known, NameTerms};
ghost use Rattle.wy_cert.specs.Steps.{certificates_of, NameTheirTerms};
ghost use Rattle.wy_check.specs.Verdicts.{verdicts_on};
ghost use Rattle.wy_check.specs.Within.{IsWithin};
ghost use Rattle.wy_term.specs.Condition.{condition_of};
ghost use Rattle.wy_term.specs.Nodes.{tree_at};

use crate::judging::judged_one;
use crate::verdict::Verdict;
use std::alloc::Global;
use wy_cert::Certs;
use wy_check::{Verdict as Given, verdicts};
use wy_search::nothing_carried;
use wy_term::{Cond, NoMemory, Terms};

/// What is known of each condition, in order, as `discharge` says it. The terms are as before afterwards, at want of memory too.
/// It takes what checking the certificates and searching the conditions take; no term is copied.
pub fn judge_alone(
    alloc: Global,
    terms: &mut Terms,
    conds: &[Cond],
    certs: &Certs,
    budget: u64,
) -> Result<Vec<Verdict>, NoMemory>
    requires conds { All (IsWithin (length terms.old)) conds.now }
    requires certs { NameTheirTerms certs.now }
    ensures known { IfOk result (λ vs. AreKnown (certificates_of certs.now) budget 1 (map (condition_of terms.old) conds.now) (map known vs.items)) }
    ensures same { (ks : List Known) → AreKnown (certificates_of certs.now) budget 1 (map (condition_of terms.old) conds.now) ks → IfOk result (λ vs. map known vs.items ≡ ks) }
    ensures named { IfOk result (λ vs. NameTerms vs.items) }
    ensures count { IfOk result (λ vs. length vs.items ≡ length conds.now) }
    ensures length { length terms.new ≡ length terms.old }
    ensures kept { (t : ℕ) → t < length terms.old → tree_at terms.new t ≡ tree_at terms.old t }
{
    let all = judged_all(alloc, terms, conds, certs, budget)?;
    Ok(all)
}

// All that is known of each condition.
fn judged_all(
    alloc: Global,
    terms: &mut Terms,
    conds: &[Cond],
    certs: &Certs,
    budget: u64,
) -> Result<Vec<Verdict>, NoMemory>
    requires conds { All (IsWithin (length terms.old)) conds.now }
    requires certs { NameTheirTerms certs.now }
    ensures judged { IfOk result (λ vs. AreJudged (certificates_of certs.now) budget 1 (map (condition_of terms.old) conds.now) vs.items) }
    ensures length { length terms.new ≡ length terms.old }
    ensures kept { (t : ℕ) → t < length terms.old → tree_at terms.new t ≡ tree_at terms.old t }
{
    let given = supplied(alloc, terms, conds, certs)?;
    let mut carried = nothing_carried(alloc, terms.len());
    let mut judged = Vec::new(alloc);
    for i in 0..conds.len() {
        let verdict = judged_one(terms, &mut carried, &conds[i], given[i], budget)?;
        judged.push(verdict)?;
    }
    Ok(judged)
}

// The verdicts on the certificates that are supplied.
fn supplied(
    alloc: Global,
    terms: &mut Terms,
    conds: &[Cond],
    certs: &Certs,
) -> Result<Vec<Given>, NoMemory>
    requires conds { All (IsWithin (length terms.old)) conds.now }
    requires certs { NameTheirTerms certs.now }
    ensures value { IfOk result (λ v. v.items ≡ verdicts_on (certificates_of certs.now) 1 (map (condition_of terms.old) conds.now)) }
    ensures count { IfOk result (λ v. length v.items ≡ length conds.now) }
    ensures length { length terms.new ≡ length terms.old }
    ensures kept { (t : ℕ) → t < length terms.old → tree_at terms.new t ≡ tree_at terms.old t }
{
    let given = verdicts(alloc, terms, conds, certs)?;
    Ok(given)
}
