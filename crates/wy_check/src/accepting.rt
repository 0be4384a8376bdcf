//! The verdicts on a list of conditions.
ghost use Rattle.std.specs.Prelude.{◌≡◌, ◌<◌, ◌++◌, ◌∷◌, [], ℕ, All, length, map, IfOk, Some};
ghost use Rattle.wy_term.specs.Nodes.{tree_at};
ghost use Rattle.wy_term.specs.Condition.{condition_of};
ghost use Rattle.wy_cert.specs.Steps.{Certificates, steps_of, certificates_of, NamesItsTerms, NameTheirTerms};
ghost use Rattle.wy_check.specs.Within.{IsWithin, AllMissing};
ghost use Rattle.wy_check.specs.Verdicts.{verdict_on, verdicts_on};

use crate::checking::{Checked, check};
use crate::verdict::Verdict;
use std::alloc::Global;
use wy_cert::{Cert, Certs};
use wy_term::{Cond, NoMemory, Terms};

/// The verdicts on conditions, in order, where these certificates are given, each for the condition with its number, from 1.
/// Of several for one condition the first counts, and those for conditions that there aren't count for nothing. The terms
/// are as before afterwards, at want of memory too. It takes what checking the certificates takes, and time linear in both
/// lists.
pub fn verdicts(
    alloc: Global,
    terms: &mut Terms,
    conds: &[Cond],
    certs: &Certs,
) -> Result<Vec<Verdict>, NoMemory>
    requires conds { All (IsWithin (length terms.old)) conds.now }
    requires certs { NameTheirTerms certs.now }
    ensures value { IfOk result (λ v. v.items ≡ verdicts_on (certificates_of certs.now) 1 (map (condition_of terms.old) conds.now)) }
    ensures length { length terms.new ≡ length terms.old }
    ensures kept { (t : ℕ) → t < length terms.old → tree_at terms.new t ≡ tree_at terms.old t }
{
    let mut verdicts = all_missing(alloc, conds.len())?;
    for (number, cert) in &certs.list {
        supply(terms, conds, &mut verdicts, *number as usize, cert)?;
    }
    Ok(verdicts)
}

// So many conditions, none of which has a certificate.
fn all_missing(alloc: Global, count: usize) -> Result<Vec<Verdict>, NoMemory>
    ensures length { IfOk result (λ v. length v.items ≡ count) }
    ensures each { IfOk result (λ v. AllMissing v.items) }
{
    let mut verdicts = Vec::new(alloc);
    for _ in 0..count {
        verdicts.push(Verdict::Missing)?;
    }
    Ok(verdicts)
}

// One certificate more, for the condition with this number: it counts where there was none before.
fn supply(
    terms: &mut Terms,
    conds: &[Cond],
    verdicts: &mut Vec<Verdict>,
    number: usize,
    cert: &Cert,
) -> Result<(), NoMemory>
    requires conds { All (IsWithin (length terms.old)) conds.now }
    requires cert { NamesItsTerms cert.now }
    requires verdicts { length verdicts.old.items ≡ length conds.now }
    ensures value { (certs : Certificates) → verdicts.old.items ≡ verdicts_on certs 1 (map (condition_of terms.old) conds.now) → IfOk result (λ _. verdicts.new.items ≡ verdicts_on (certs ++ (number, steps_of cert.now) ∷ []) 1 (map (condition_of terms.old) conds.now)) }
    ensures verdicts { length verdicts.new.items ≡ length conds.now }
    ensures length { length terms.new ≡ length terms.old }
    ensures kept { (t : ℕ) → t < length terms.old → tree_at terms.new t ≡ tree_at terms.old t }
{
    if number < 1 {
        return Ok(());
    }
    if conds.len() < number {
        return Ok(());
    }
    let place = number - 1;
    if !verdicts[place].is_missing() {
        return Ok(());
    }
    verdicts[place] = judged(terms, &conds[place], cert)?;
    Ok(())
}

// The verdict on a condition for which this certificate is given.
fn judged(terms: &mut Terms, cond: &Cond, cert: &Cert) -> Result<Verdict, NoMemory>
    requires cond { IsWithin (length terms.old) cond.now }
    requires cert { NamesItsTerms cert.now }
    ensures value { IfOk result (λ v. v ≡ verdict_on (condition_of terms.old cond.now) (Some (steps_of cert.now))) }
    ensures length { length terms.new ≡ length terms.old }
    ensures kept { (t : ℕ) → t < length terms.old → tree_at terms.new t ≡ tree_at terms.old t }
{
    match check(terms, cond, cert)? {
        Checked::Yes => Ok(Verdict::Supplied),
        Checked::No(step) => Ok(Verdict::Bad(step)),
    }
}
