//! The verdict on one condition.
ghost use Rattle.std.specs.Prelude.{nat_eq, ◌≡◌, ◌<◌, ◌^◌, ℕ, List, All, length, IfOk, OnOk, Some};
ghost use Rattle.std.specs.HashMap.{get};
ghost use Rattle.wy_batch.specs.Bench.{IsBench};
ghost use Rattle.wy_batch.specs.Index.{IsIndex};
ghost use Rattle.wy_batch.specs.Judged.{conditions_in, EndsIn, IsJudged, IsVerdictAt};
ghost use Rattle.wy_cert.specs.Steps.{Certificates, NamesItsTerms, NameTheirTerms, certificates_of, steps_of};
ghost use Rattle.wy_check.specs.Verdicts.{certificate_for, verdict_on};
ghost use Rattle.wy_check.specs.Within.{IsWithin};
ghost use Rattle.wy_search.specs.Carried.{IsCarried};
ghost use Rattle.wy_term.specs.Condition.{condition_of};
ghost use Rattle.wy_term.specs.Nodes.{Plain, tree_at};

use crate::bench::{Bench, brought};
use crate::index::place_of;
use crate::verdict::{End, Verdict};
use std::collections::HashMap;
use wy_cert::{Cert, Certs};
use wy_check::{Checked, Verdict as Given, check};
use wy_search::{Carried, Verdict as Searched, search};
use wy_term::{Cond, Conds, NoMemory, Terms};

/// What is known of the condition at this place, from 0: whether the certificate for it is valid, by its place in the index, and, unless it is,
/// what the search ends in at this budget of leaves. It takes what bringing the condition to the bench, checking and searching take.
pub fn judged(
    bench: &mut Bench,
    places: &HashMap<u32, usize>,
    conds: &Conds,
    certs: &Certs,
    budget: u64,
    place: u32,
) -> Result<Verdict, NoMemory>
    requires bench { IsBench conds.now.terms bench.old }
    requires places { IsIndex certs.now.list.items (get nat_eq places.now) }
    requires conds { All (IsWithin (length conds.now.terms)) conds.now.list.items }
    requires certs { NameTheirTerms certs.now }
    requires place { place < length conds.now.list.items }
    requires few { length conds.now.list.items < 2 ^ 32 }
    ensures value { IfOk result (IsVerdictAt (certificates_of certs.now) budget (conditions_in conds.now) place) }
    ensures bench { OnOk result (IsBench conds.now.terms bench.new) }
{
    let cond = brought(bench, &conds.terms, &conds.list[place as usize])?;
    judged_there(bench, places, certs, &cond, place + 1, budget)
}

// What is known of the condition with this number, from 1, which stands on the bench.
fn judged_there(
    bench: &mut Bench,
    places: &HashMap<u32, usize>,
    certs: &Certs,
    cond: &Cond,
    number: u32,
    budget: u64,
) -> Result<Verdict, NoMemory>
    requires carried { IsCarried bench.old.terms bench.old.carried }
    requires places { IsIndex certs.now.list.items (get nat_eq places.now) }
    requires certs { NameTheirTerms certs.now }
    requires cond { IsWithin (length bench.old.terms) cond.now }
    ensures value { IfOk result (IsJudged (certificates_of certs.now) budget number (condition_of bench.old.terms cond.now)) }
    ensures bench { (from : List Plain) → IsBench from bench.old → OnOk result (IsBench from bench.new) }
{
    let given = given_for(&mut bench.terms, places, certs, cond, number)?;
    judged_one(&mut bench.terms, &mut bench.carried, cond, given, budget)
}

// The verdict on what was supplied for the condition with this number, from 1.
fn given_for(
    terms: &mut Terms,
    places: &HashMap<u32, usize>,
    certs: &Certs,
    cond: &Cond,
    number: u32,
) -> Result<Given, NoMemory>
    requires places { IsIndex certs.now.list.items (get nat_eq places.now) }
    requires certs { NameTheirTerms certs.now }
    requires cond { IsWithin (length terms.old) cond.now }
    ensures value { IfOk result (λ g. g ≡ verdict_on (condition_of terms.old cond.now) (certificate_for (certificates_of certs.now) number)) }
    ensures length { length terms.new ≡ length terms.old }
    ensures kept { (t : ℕ) → t < length terms.old → tree_at terms.new t ≡ tree_at terms.old t }
{
    match place_of(places, number) {
        None => Ok(Given::Missing),
        Some(place) => given_by(terms, cond, &certs.list[place].1),
    }
}

// The verdict on a condition for which this certificate is supplied.
fn given_by(terms: &mut Terms, cond: &Cond, cert: &Cert) -> Result<Given, NoMemory>
    requires cond { IsWithin (length terms.old) cond.now }
    requires cert { NamesItsTerms cert.now }
    ensures value { IfOk result (λ g. g ≡ verdict_on (condition_of terms.old cond.now) (Some (steps_of cert.now))) }
    ensures length { length terms.new ≡ length terms.old }
    ensures kept { (t : ℕ) → t < length terms.old → tree_at terms.new t ≡ tree_at terms.old t }
{
    match check(terms, cond, cert)? {
        Checked::Yes => Ok(Given::Supplied),
        Checked::No(step) => Ok(Given::Bad(step)),
    }
}

/// What is known of a condition, where the verdict on what was supplied for it is this.
pub fn judged_one(
    terms: &mut Terms,
    carried: &mut Carried,
    cond: &Cond,
    given: Given,
    budget: u64,
) -> Result<Verdict, NoMemory>
    requires cond { IsWithin (length terms.old) cond.now }
    requires carried { IsCarried terms.old carried.old }
    ensures value { (certs : Certificates) → (n : ℕ) → given ≡ verdict_on (condition_of terms.old cond.now) (certificate_for certs n) → IfOk result (IsJudged certs budget n (condition_of terms.old cond.now)) }
    ensures carried { OnOk result (IsCarried terms.new carried.new) }
    ensures length { length terms.new ≡ length terms.old }
    ensures kept { (t : ℕ) → t < length terms.old → tree_at terms.new t ≡ tree_at terms.old t }
{
    match given {
        Given::Supplied => Ok(Verdict {
            bad_step: None,
            end: End::Supplied,
        }),
        Given::Missing => {
            let end = searched(terms, carried, cond, budget)?;
            Ok(Verdict {
                bad_step: None,
                end,
            })
        }
        Given::Bad(step) => {
            let end = searched(terms, carried, cond, budget)?;
            Ok(Verdict {
                bad_step: Some(step),
                end,
            })
        }
    }
}

// What the search of a condition ends in.
fn searched(
    terms: &mut Terms,
    carried: &mut Carried,
    cond: &Cond,
    budget: u64,
) -> Result<End, NoMemory>
    requires cond { IsWithin (length terms.old) cond.now }
    requires carried { IsCarried terms.old carried.old }
    ensures value { IfOk result (EndsIn (condition_of terms.old cond.now) budget) }
    ensures carried { OnOk result (IsCarried terms.new carried.new) }
    ensures length { length terms.new ≡ length terms.old }
    ensures kept { (t : ℕ) → t < length terms.old → tree_at terms.new t ≡ tree_at terms.old t }
{
    let verdict = search(terms, carried, cond, budget)?;
    match verdict {
        Searched::Found(leaves) => Ok(End::Found { leaves }),
        Searched::Open(leaf) => Ok(End::Open(leaf)),
        Searched::Spent => Ok(End::Spent),
    }
}
