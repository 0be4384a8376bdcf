//! The verdicts on conditions beside those that are kept.
ghost use Rattle.std.specs.Prelude.{◌≡◌, ◌≤◌, ◌<◌, ◌^◌, ℕ, List, All, true, false, length, map, IfOk, MatchOption};
ghost use Rattle.wy_batch.specs.Seen.{NameTerms, known};
ghost use Rattle.wy_batch.specs.wy_check.Within.{IsWithin};
ghost use Rattle.wy_cert.specs.Steps.{certificates_of};
ghost use Rattle.wy_term.specs.Condition.{condition_of};
ghost use Rattle.wy_term.specs.Nodes.{Plain, tree_at};
ghost use Rattle.wy_top.specs.Taken as spec;
ghost use Rattle.wy_vc.specs.wy_vc_spec.Limits.{most_conditions};

use std::alloc::Global;
use std::thread::Threads;
use wy_batch::{End, Verdict, judge};
use wy_cert::{Cert, Certs};
use wy_term::{Cond, Conds, NoMemory, Unfold};

// The certificates behind the first one, where that is for the condition with this number.
fn behind_first(certs: &[(u32, Cert)], number: u32) -> Option<&[(u32, Cert)]>
    ensures value { MatchOption result (spec.comes_next number (spec.pairs certs.now) ≡ false)
        (λ more. (spec.comes_next number (spec.pairs certs.now) ≡ true)
        × (spec.pairs more.now ≡ spec.behind (spec.pairs certs.now))) }
{
    match certs.split_first() {
        Some((first, more)) => { if first.0 == number { Some(more) } else { None } }
        None => None,
    }
}

// The same condition, over the same terms.
fn copied(alloc: Global, cond: &Cond) -> Result<Cond, NoMemory>
    ensures value { (nodes : List Plain) → IfOk result (λ c. condition_of nodes c ≡ condition_of nodes cond.now) }
    ensures within { (n : ℕ) → IsWithin n cond.now → IfOk result (IsWithin n) }
{
    let hyps = Vec::from_slice(alloc, &cond.hyps)?;
    let list = Vec::from_slice(alloc, &cond.unfold.list)?;
    Ok(Cond {
        kind: cond.kind,
        at: cond.at,
        hyps,
        goal: cond.goal,
        unfold: Unfold { list },
    })
}

// The conditions that no certificate is for, in order.
fn others(alloc: Global, conds: &[Cond], kept: &[(u32, Cert)]) -> Result<Vec<Cond>, NoMemory>
    requires few { length conds.now < 2 ^ 32 }
    ensures value { (nodes : List Plain) → IfOk result (λ r. map (condition_of nodes) r.items ≡ spec.others_of 1 (spec.pairs kept.now) (map (condition_of nodes) conds.now)) }
    ensures within { (n : ℕ) → All (IsWithin n) conds.now → IfOk result (λ r. All (IsWithin n) r.items) }
    ensures count { IfOk result (λ r. length r.items ≤ length conds.now) }
{
    let mut left = kept;
    let mut list = Vec::new(alloc);
    for i in 0..conds.len() {
        if let Some(more) = behind_first(left, i as u32 + 1) {
            left = more;
            continue;
        }
        list.push(copied(alloc, &conds[i])?)?;
    }
    Ok(list)
}

// What is known of so many conditions: that they are kept, where there is a certificate, and else the next one of these verdicts.
fn beside(
    alloc: Global,
    count: usize,
    kept: &[(u32, Cert)],
    verdicts: Vec<Verdict>,
) -> Result<Vec<Verdict>, NoMemory>
    requires few { count < 2 ^ 32 }
    ensures value { IfOk result (λ r. map known r.items ≡ spec.beside spec.known_kept 1 (spec.pairs kept.now) count (map known verdicts.items)) }
    ensures named { NameTerms verdicts.items → IfOk result (λ r. NameTerms r.items) }
{
    let mut left = kept;
    let mut waiting = verdicts;
    waiting.reverse();
    let mut list = Vec::new(alloc);
    for i in 0..count {
        if let Some(more) = behind_first(left, i as u32 + 1) {
            left = more;
            list.push(Verdict {
                bad_step: None,
                end: End::Supplied,
            })?;
            continue;
        }
        let Some(verdict) = waiting.pop() else {
            continue;
        };
        list.push(verdict)?;
    }
    Ok(list)
}

/// What is known of each condition, in order, where these certificates are kept, each for the condition with its number; and the
/// conditions as before. No certificate is checked. It takes what searching the other conditions takes, shared by so many workers,
/// and copies these, but no term.
pub fn judge_others<R: Threads + Sync>(
    rt: &R,
    alloc: Global,
    conds: Conds,
    kept: &Certs,
    budget: u64,
    workers: u32,
) -> Result<(Conds, Vec<Verdict>), NoMemory>
    requires conds { All (IsWithin (length conds.terms)) conds.list.items }
    requires few { length conds.list.items ≤ most_conditions }
    requires workers { (1 ≤ workers) × (workers ≤ 64) }
    ensures judged { IfOk result (λ r. spec.AreBeside budget (certificates_of kept.now) (map (condition_of conds.terms) conds.list.items) (map known r.1.items)) }
    ensures named { IfOk result (λ r. NameTerms r.1.items) }
    ensures count { IfOk result (λ r. length r.1.items ≡ length conds.list.items) }
    ensures list { IfOk result (λ r. r.0.list ≡ conds.list) }
    ensures length { IfOk result (λ r. length r.0.terms ≡ length conds.terms) }
    ensures kept { IfOk result (λ r. (t : ℕ) → t < length conds.terms → tree_at r.0.terms t ≡ tree_at conds.terms t) }
{
    let Conds { terms, list } = conds;
    let mut rest = Conds {
        terms,
        list: others(alloc, &list, &kept.list)?,
    };
    let none = Certs {
        list: Vec::new(alloc),
    };
    let verdicts = judge(rt, alloc, &mut rest, &none, budget, workers)?;
    let verdicts = beside(alloc, list.len(), &kept.list, verdicts)?;
    Ok((
        Conds {
            terms: rest.terms,
            list,
        },
        verdicts,
    ))
}
