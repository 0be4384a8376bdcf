//! To which nodes each kind of step leads.
ghost use Rattle.std.specs.Prelude.{◌≡◌, ◌<◌, List, length, option_map, IfOk, IfSome};
ghost use Rattle.wy_term.specs.Nodes.{tree_at};
ghost use Rattle.wy_term.specs.Condition.{Entry, condition_of};
ghost use Rattle.wy_facts.specs.Membership.{AreTypesBelow};
ghost use Rattle.wy_facts.specs.Seen.{terms_at, AreBelow, Stays};
ghost use Rattle.wy_check_splits.specs.wy_check_nodes.Seen.{seen_branch, IsBranch};
ghost use Rattle.wy_cert.specs.Steps.{split, shut, chain, clash, sum_of, cut, inst, wit, fact as fact_step, prod, written, IsBelow};
ghost use Rattle.wy_vc_laws.specs.wy_check_spec.judge.Node.{Node};
ghost use Rattle.wy_vc_laws.specs.wy_check_spec.valid.Membership.{fact_among};
ghost use Rattle.wy_vc_laws.specs.wy_check_spec.valid.Validity.{after};
ghost use Rattle.wy_check.specs.Led.{led, IsOutcomeOver};

use crate::bringing::{all_brought, brought};
use crate::outcome::{Outcome, adds, adds_one, closes};
use crate::product::product_stated;
use wy_cert::Step;
use wy_check_splits::{
    Branch, chain_stated, cut_stated, instance_stated, is_atom, is_clash, is_refuting, is_shut,
    witness_stated,
};
use wy_facts::fact;
use wy_term::{Cond, NoMemory, Terms};

fn by_split(terms: &mut Terms, from: &Terms, f: u32) -> Result<Option<Outcome>, NoMemory>
    requires { f < length from.now }
    ensures value { (types : List Entry) (node : Node) → IfOk result (λ o. option_map (led (tree_at terms.new) node) o ≡ after types node (split (tree_at from.now f))) }
    ensures within { IfOk result (λ o. IfSome o (IsOutcomeOver (length terms.new))) }
    ensures stays { Stays terms.old terms.new }
{
    let atom = brought(terms, from, f)?;
    if is_atom(terms, atom) {
        Ok(Some(Outcome::Splits(atom)))
    } else {
        Ok(None)
    }
}

fn by_shut(terms: &Terms, branch: &Branch) -> Result<Option<Outcome>, NoMemory>
    requires { IsBranch terms.now branch.now }
    ensures value { (types : List Entry) → IfOk result (λ o. option_map (led (tree_at terms.now) (seen_branch (tree_at terms.now) branch.now)) o ≡ after types (seen_branch (tree_at terms.now) branch.now) shut) }
    ensures within { IfOk result (λ o. IfSome o (IsOutcomeOver (length terms.now))) }
{
    let valid = is_shut(terms, branch)?;
    Ok(closes(valid))
}

fn by_chain(
    terms: &mut Terms,
    branch: &Branch,
    from: &Terms,
    all: &[u32],
) -> Result<Option<Outcome>, NoMemory>
    requires branch { IsBranch terms.old branch.now }
    requires terms { AreBelow (length from.now) all.now }
    ensures value { (types : List Entry) → IfOk result (λ o. option_map (led (tree_at terms.new) (seen_branch (tree_at terms.old) branch.now)) o ≡ after types (seen_branch (tree_at terms.old) branch.now) (chain (terms_at from.now all.now))) }
    ensures within { IfOk result (λ o. IfSome o (IsOutcomeOver (length terms.new))) }
    ensures stays { Stays terms.old terms.new }
{
    let chain = all_brought(terms, from, all)?;
    let stated = chain_stated(terms, branch, &chain)?;
    Ok(adds(stated))
}

fn by_clash(
    terms: &Terms,
    branch: &Branch,
    i: u32,
    other: Option<u32>,
) -> Result<Option<Outcome>, NoMemory>
    requires { IsBranch terms.now branch.now }
    ensures value { (types : List Entry) → IfOk result (λ o. option_map (led (tree_at terms.now) (seen_branch (tree_at terms.now) branch.now)) o ≡ after types (seen_branch (tree_at terms.now) branch.now) (clash i other)) }
    ensures within { IfOk result (λ o. IfSome o (IsOutcomeOver (length terms.now))) }
{
    match is_clash(terms, branch, i, other)? {
        Some(yes) => Ok(closes(yes)),
        None => Ok(None),
    }
}

fn by_sum(
    terms: &mut Terms,
    branch: &Branch,
    pairs: &[(u128, u32)],
) -> Result<Option<Outcome>, NoMemory>
    requires { IsBranch terms.old branch.now }
    ensures value { (types : List Entry) → IfOk result (λ o. option_map (led (tree_at terms.new) (seen_branch (tree_at terms.old) branch.now)) o ≡ after types (seen_branch (tree_at terms.old) branch.now) (sum_of pairs.now)) }
    ensures within { IfOk result (λ o. IfSome o (IsOutcomeOver (length terms.new))) }
    ensures stays { Stays terms.old terms.new }
{
    let valid = is_refuting(terms, branch, pairs)?;
    Ok(closes(valid))
}

fn by_cut(
    terms: &mut Terms,
    branch: &Branch,
    d: u128,
    pairs: &[(u128, u32)],
) -> Result<Option<Outcome>, NoMemory>
    requires { IsBranch terms.old branch.now }
    ensures value { (types : List Entry) → IfOk result (λ o. option_map (led (tree_at terms.new) (seen_branch (tree_at terms.old) branch.now)) o ≡ after types (seen_branch (tree_at terms.old) branch.now) (cut d pairs.now)) }
    ensures within { IfOk result (λ o. IfSome o (IsOutcomeOver (length terms.new))) }
    ensures stays { Stays terms.old terms.new }
{
    let stated = cut_stated(terms, branch, d, pairs)?;
    adds_one(terms.allocator(), stated)
}

fn by_inst(
    terms: &mut Terms,
    branch: &Branch,
    from: &Terms,
    i: u32,
    t: u32,
) -> Result<Option<Outcome>, NoMemory>
    requires branch { IsBranch terms.old branch.now }
    requires term { t < length from.now }
    ensures value { (types : List Entry) → IfOk result (λ o. option_map (led (tree_at terms.new) (seen_branch (tree_at terms.old) branch.now)) o ≡ after types (seen_branch (tree_at terms.old) branch.now) (inst i (tree_at from.now t))) }
    ensures within { IfOk result (λ o. IfSome o (IsOutcomeOver (length terms.new))) }
    ensures stays { Stays terms.old terms.new }
{
    let term = brought(terms, from, t)?;
    let stated = instance_stated(terms, branch, i, term)?;
    adds_one(terms.allocator(), stated)
}

fn by_wit(terms: &mut Terms, branch: &Branch, i: u32) -> Result<Option<Outcome>, NoMemory>
    requires { IsBranch terms.old branch.now }
    ensures value { (types : List Entry) → IfOk result (λ o. option_map (led (tree_at terms.new) (seen_branch (tree_at terms.old) branch.now)) o ≡ after types (seen_branch (tree_at terms.old) branch.now) (wit i)) }
    ensures within { IfOk result (λ o. IfSome o (IsOutcomeOver (length terms.new))) }
    ensures stays { Stays terms.old terms.new }
{
    let stated = witness_stated(terms, branch, i)?;
    Ok(adds(stated))
}

// The formula that a schema states.
fn fact_stated(
    terms: &mut Terms,
    cond: &Cond,
    n: u32,
    arguments: &[u32],
) -> Result<Option<u32>, NoMemory>
    requires arguments { AreBelow (length terms.old) arguments.now }
    requires types { AreTypesBelow (length terms.old) cond.now }
    ensures value { IfOk result (λ o. option_map (tree_at terms.new) o ≡ fact_among (condition_of terms.old cond.now).types n (terms_at terms.old arguments.now)) }
    ensures within { IfOk result (λ o. IfSome o (λ f. f < length terms.new)) }
    ensures stays { Stays terms.old terms.new }
{
    match fact(terms, cond, n, arguments) {
        Ok(stated) => Ok(stated),
        Err(_) => Err(NoMemory),
    }
}

fn by_fact(
    terms: &mut Terms,
    branch: &Branch,
    cond: &Cond,
    from: &Terms,
    n: u32,
    all: &[u32],
) -> Result<Option<Outcome>, NoMemory>
    requires branch { IsBranch terms.old branch.now }
    requires types { AreTypesBelow (length terms.old) cond.now }
    requires terms { AreBelow (length from.now) all.now }
    ensures value { IfOk result (λ o. option_map (led (tree_at terms.new) (seen_branch (tree_at terms.old) branch.now)) o ≡ after (condition_of terms.old cond.now).types (seen_branch (tree_at terms.old) branch.now) (fact_step n (terms_at from.now all.now))) }
    ensures within { IfOk result (λ o. IfSome o (IsOutcomeOver (length terms.new))) }
    ensures stays { Stays terms.old terms.new }
{
    let arguments = all_brought(terms, from, all)?;
    let stated = fact_stated(terms, cond, n, &arguments)?;
    adds_one(terms.allocator(), stated)
}

fn by_prod(
    terms: &mut Terms,
    branch: &Branch,
    from: &Terms,
    i: u32,
    j: u32,
    p: u32,
) -> Result<Option<Outcome>, NoMemory>
    requires branch { IsBranch terms.old branch.now }
    requires product { p < length from.now }
    ensures value { (types : List Entry) → IfOk result (λ o. option_map (led (tree_at terms.new) (seen_branch (tree_at terms.old) branch.now)) o ≡ after types (seen_branch (tree_at terms.old) branch.now) (prod i j (tree_at from.now p))) }
    ensures within { IfOk result (λ o. IfSome o (IsOutcomeOver (length terms.new))) }
    ensures stays { Stays terms.old terms.new }
{
    let product = brought(terms, from, p)?;
    let stated = product_stated(terms, branch, i, j, product)?;
    adds_one(terms.allocator(), stated)
}

/// To which nodes a step leads at a node, where it is valid. The step's terms are those of `from`.
pub fn outcome_of(
    terms: &mut Terms,
    branch: &Branch,
    cond: &Cond,
    from: &Terms,
    step: &Step,
) -> Result<Option<Outcome>, NoMemory>
    requires branch { IsBranch terms.old branch.now }
    requires types { AreTypesBelow (length terms.old) cond.now }
    requires step { IsBelow (length from.now) step.now }
    ensures value { IfOk result (λ o. option_map (led (tree_at terms.new) (seen_branch (tree_at terms.old) branch.now)) o ≡ after (condition_of terms.old cond.now).types (seen_branch (tree_at terms.old) branch.now) (written (tree_at from.now) step.now)) }
    ensures within { IfOk result (λ o. IfSome o (IsOutcomeOver (length terms.new))) }
    ensures stays { Stays terms.old terms.new }
{
    match step {
        Step::Split(f) => by_split(terms, from, *f),
        Step::Shut => by_shut(terms, branch),
        Step::Chain(all) => by_chain(terms, branch, from, all),
        Step::Clash(i, other) => by_clash(terms, branch, *i, *other),
        Step::Sum(pairs) => by_sum(terms, branch, pairs),
        Step::Cut(d, pairs) => by_cut(terms, branch, *d, pairs),
        Step::Inst(i, t) => by_inst(terms, branch, from, *i, *t),
        Step::Wit(i) => by_wit(terms, branch, *i),
        Step::Fact(n, all) => by_fact(terms, branch, cond, from, *n, all),
        Step::Prod(i, j, p) => by_prod(terms, branch, from, *i, *j, *p),
    }
}
