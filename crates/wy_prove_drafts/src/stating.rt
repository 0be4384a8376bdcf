//! Steps that add to a node.
ghost use Rattle.std.specs.Prelude.{◌≡◌, ◌<◌, List, Bool, IfOk, IfSome, OnOk, is_some, length, option_map};
ghost use Rattle.wy_cert.specs.Steps.{chain, cut, fact as fact_step, inst, prod, wit};
ghost use Rattle.wy_prove_drafts.specs.Draft.{IsDraft, seen_draft};
ghost use Rattle.wy_prove_drafts.specs.Progress.{Writes};
ghost use Rattle.wy_facts.specs.Membership.{AreTypesBelow};
ghost use Rattle.wy_facts.specs.Seen.{AreBelow, Stays, terms_at};
ghost use Rattle.wy_search_laws.specs.wy_check_spec.judge.Node.{added};
ghost use Rattle.wy_term.specs.Condition.{Entry, condition_of};
ghost use Rattle.wy_term.specs.Nodes.{tree_at};
ghost use Rattle.wy_search_laws.specs.wy_check_spec.valid.Membership.{fact_among};

use crate::draft::Draft;
use crate::putting::{state_all, state_one};
use wy_cert::Step;
use wy_check_nodes::cut_stated;
use wy_check_splits::{chain_stated, instance_stated, witness_stated};
use wy_facts::fact;
use wy_search_laws::product_stated;
use wy_term::{Cond, NoMemory, Terms};

/// Writes `chain` of terms, where neighbours are joined or alike, unless its ends' equality adds nothing to the node. Says whether the
/// chain is valid.
pub fn write_chain(terms: &mut Terms, draft: &mut Draft, all: &[u32]) -> Result<bool, NoMemory>
    requires draft { IsDraft terms.old draft.old }
    requires terms { AreBelow (length terms.old) all.now }
    ensures value { (types : List Entry) → IfOk result (Writes types (chain (terms_at terms.old all.now)) (seen_draft (tree_at terms.old) draft.old) (seen_draft (tree_at terms.new) draft.new)) }
    ensures draft { OnOk result (IsDraft terms.new draft.new) }
    ensures stays { Stays terms.old terms.new }
{
    let stated = chain_stated(terms, &draft.branch, all)?;
    let named = Vec::from_slice(terms.allocator(), all)?;
    state_all(terms, draft, Step::Chain(named), stated)
}

/// Writes `cut` by a divisor of literals by their multipliers and numbers, unless what it states is there. The formula that it states, where
/// it is valid.
pub fn write_cut(
    terms: &mut Terms,
    draft: &mut Draft,
    d: u128,
    pairs: Vec<(u128, u32)>,
) -> Result<Option<u32>, NoMemory>
    requires draft { IsDraft terms.old draft.old }
    ensures value { (types : List Entry) → IfOk result (λ o. Writes types (cut d pairs.items) (seen_draft (tree_at terms.old) draft.old) (seen_draft (tree_at terms.new) draft.new) (is_some o)) }
    ensures adds { IfOk result (λ o. IfSome o (λ f. (seen_draft (tree_at terms.new) draft.new).node ≡ added (seen_draft (tree_at terms.old) draft.old).node (tree_at terms.new f))) }
    ensures within { IfOk result (λ o. IfSome o (λ f. f < length terms.new)) }
    ensures draft { OnOk result (IsDraft terms.new draft.new) }
    ensures stays { Stays terms.old terms.new }
{
    let stated = cut_stated(terms, &draft.branch, d, &pairs)?;
    state_one(terms, draft, Step::Cut(d, pairs), stated)?;
    Ok(stated)
}

/// Writes `inst` of the literal with this number at a term, where it calls for instances, unless the instance adds nothing. Says whether
/// it is valid.
pub fn write_instance(
    terms: &mut Terms,
    draft: &mut Draft,
    i: u32,
    t: u32,
) -> Result<bool, NoMemory>
    requires draft { IsDraft terms.old draft.old }
    requires term { t < length terms.old }
    ensures value { (types : List Entry) → IfOk result (Writes types (inst i (tree_at terms.old t)) (seen_draft (tree_at terms.old) draft.old) (seen_draft (tree_at terms.new) draft.new)) }
    ensures draft { OnOk result (IsDraft terms.new draft.new) }
    ensures stays { Stays terms.old terms.new }
{
    let stated = instance_stated(terms, &draft.branch, i, t)?;
    state_one(terms, draft, Step::Inst(i, t), stated)
}

/// Writes `wit` of the literal with this number, where it calls for a witness, and says whether it is valid.
pub fn write_witness(terms: &mut Terms, draft: &mut Draft, i: u32) -> Result<bool, NoMemory>
    requires draft { IsDraft terms.old draft.old }
    ensures value { (types : List Entry) → IfOk result (Writes types (wit i) (seen_draft (tree_at terms.old) draft.old) (seen_draft (tree_at terms.new) draft.new)) }
    ensures draft { OnOk result (IsDraft terms.new draft.new) }
    ensures stays { Stays terms.old terms.new }
{
    let stated = witness_stated(terms, &draft.branch, i)?;
    state_all(terms, draft, Step::Wit(i), stated)
}

// The formula that a schema states of these arguments, where they are such as it takes.
fn fact_stated(
    terms: &mut Terms,
    cond: &Cond,
    schema: u32,
    all: &[u32],
) -> Result<Option<u32>, NoMemory>
    requires types { AreTypesBelow (length terms.old) cond.now }
    requires terms { AreBelow (length terms.old) all.now }
    ensures value { IfOk result (λ o. option_map (tree_at terms.new) o ≡ fact_among (condition_of terms.old cond.now).types schema (terms_at terms.old all.now)) }
    ensures within { IfOk result (λ o. IfSome o (λ f. f < length terms.new)) }
    ensures stays { Stays terms.old terms.new }
{
    match fact(terms, cond, schema, all) {
        Ok(stated) => Ok(stated),
        Err(_) => Err(NoMemory),
    }
}

/// Writes `fact` of a schema and arguments, where they are such as it takes, unless its formula adds nothing. Says whether it is valid.
pub fn write_fact(
    terms: &mut Terms,
    draft: &mut Draft,
    cond: &Cond,
    schema: u32,
    all: &[u32],
) -> Result<bool, NoMemory>
    requires draft { IsDraft terms.old draft.old }
    requires types { AreTypesBelow (length terms.old) cond.now }
    requires terms { AreBelow (length terms.old) all.now }
    ensures value { IfOk result (Writes (condition_of terms.old cond.now).types (fact_step schema (terms_at terms.old all.now)) (seen_draft (tree_at terms.old) draft.old) (seen_draft (tree_at terms.new) draft.new)) }
    ensures draft { OnOk result (IsDraft terms.new draft.new) }
    ensures stays { Stays terms.old terms.new }
{
    let stated = fact_stated(terms, cond, schema, all)?;
    let named = Vec::from_slice(terms.allocator(), all)?;
    state_one(terms, draft, Step::Fact(schema, named), stated)
}

/// Writes `prod` of two literals by their numbers and a product, where they are bounds of its factors, unless it adds nothing. Says whether
/// it is valid.
pub fn write_product(
    terms: &mut Terms,
    draft: &mut Draft,
    i: u32,
    j: u32,
    p: u32,
) -> Result<bool, NoMemory>
    requires draft { IsDraft terms.old draft.old }
    requires product { p < length terms.old }
    ensures value { (types : List Entry) → IfOk result (Writes types (prod i j (tree_at terms.old p)) (seen_draft (tree_at terms.old) draft.old) (seen_draft (tree_at terms.new) draft.new)) }
    ensures draft { OnOk result (IsDraft terms.new draft.new) }
    ensures stays { Stays terms.old terms.new }
{
    let stated = product_stated(terms, &draft.branch, i, j, p)?;
    state_one(terms, draft, Step::Prod(i, j, p), stated)
}
