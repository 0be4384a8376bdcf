//! Certificates for the conditions that were found.
ghost use Rattle.std.specs.Prelude.{◌≡◌, ◌<◌, ◌^◌, ℕ, All, None, true, length, map, IfOk, IfSome};
ghost use Rattle.wy_cert.specs.Steps.{certificates_of, NameTheirTerms};
ghost use Rattle.wy_prove.specs.Answers.{AnswersWhatIsFound, IsFormedThroughout};
ghost use Rattle.wy_batch.specs.wy_check.Within.{IsWithin};
ghost use Rattle.wy_term.specs.Condition.{condition_of};
ghost use Rattle.wy_term.specs.Nodes.{tree_at};
ghost use Rattle.wy_top.specs.Found as spec;
ghost use Rattle.wy_batch.specs.Known.{is_found};
ghost use Rattle.wy_batch.specs.Seen.{known, seen_end};

use std::alloc::Global;
use wy_batch::{End, Verdict};
use wy_cert::Certs;
use wy_prove::certified;
use wy_term::{Cond, NoMemory, Terms};

/// A valid certificate for each condition whose search closed all leaves, with its number, from 1, in order; none where one of them gets
/// none, since the certificate has a name or a number that no file spells. The search goes its way again, with this budget of leaves, and
/// writes the steps that show each node.
pub fn found_certificates(
    alloc: Global,
    terms: &mut Terms,
    conds: &[Cond],
    verdicts: &[Verdict],
    budget: u64,
) -> Result<Option<Certs>, NoMemory>
    requires few { length conds.now < 2 ^ 32 }
    requires each { length verdicts.now ≡ length conds.now }
    requires within { All (IsWithin (length terms.old)) conds.now }
    requires formed { All (λ c. IsFormedThroughout (condition_of terms.old c)) conds.now }
    ensures certificates { IfOk result (λ o. IfSome o (λ certs. spec.AreFor 1 (map (condition_of terms.old) conds.now) (map known verdicts.now) (certificates_of certs))) }
    ensures named { IfOk result (λ o. IfSome o NameTheirTerms) }
    ensures lacking { IfOk result (λ o. o ≡ None → spec.LacksOne budget (map (condition_of terms.old) conds.now) (map known verdicts.now)) }
{
    let mut certs = Certs {
        list: Vec::new(alloc),
    };
    for i in 0..conds.len() {
        let number = i as u32 + 1;
        match with_found(certs, terms, number, &conds[i], &verdicts[i].end, budget)? {
            Some(more) => certs = more,
            None => return Ok(None),
        }
    }
    Ok(Some(certs))
}

// The certificates, and behind them one for the condition with this number, if it was found; none where it gets none.
fn with_found(
    certs: Certs,
    terms: &mut Terms,
    number: u32,
    cond: &Cond,
    end: &End,
    budget: u64,
) -> Result<Option<Certs>, NoMemory>
    requires certs { NameTheirTerms certs }
    requires cond { IsWithin (length terms.old) cond.now }
    requires formed { IsFormedThroughout (condition_of terms.old cond.now) }
    ensures value { IfOk result (λ o. IfSome o (λ more. spec.IsMore number (condition_of terms.old cond.now) (seen_end end.now) (certificates_of certs) (certificates_of more))) }
    ensures named { IfOk result (λ o. IfSome o NameTheirTerms) }
    ensures lacking { IfOk result (λ o. o ≡ None → (is_found (seen_end end.now) ≡ true) × AnswersWhatIsFound (condition_of terms.old cond.now) budget None) }
    ensures length { length terms.new ≡ length terms.old }
    ensures kept { (t : ℕ) → t < length terms.old → tree_at terms.new t ≡ tree_at terms.old t }
{
    match end {
        End::Supplied | End::Open(_) | End::Spent => Ok(Some(certs)),
        End::Found { .. } => with_certified(certs, terms, number, cond, budget),
    }
}

// The certificates, and behind them one for the condition with this number; none where it gets none.
fn with_certified(
    certs: Certs,
    terms: &mut Terms,
    number: u32,
    cond: &Cond,
    budget: u64,
) -> Result<Option<Certs>, NoMemory>
    requires certs { NameTheirTerms certs }
    requires cond { IsWithin (length terms.old) cond.now }
    requires formed { IsFormedThroughout (condition_of terms.old cond.now) }
    ensures value { IfOk result (λ o. IfSome o (λ more. spec.IsOneMore number (condition_of terms.old cond.now) (certificates_of certs) (certificates_of more))) }
    ensures named { IfOk result (λ o. IfSome o NameTheirTerms) }
    ensures lacking { IfOk result (λ o. o ≡ None → AnswersWhatIsFound (condition_of terms.old cond.now) budget None) }
    ensures length { length terms.new ≡ length terms.old }
    ensures kept { (t : ℕ) → t < length terms.old → tree_at terms.new t ≡ tree_at terms.old t }
{
    let made = certified(terms, cond, budget)?;
    match made {
        Some(cert) => {
            let mut certs = certs;
            certs.list.push((number, cert))?;
            Ok(Some(certs))
        }
        None => Ok(None),
    }
}
