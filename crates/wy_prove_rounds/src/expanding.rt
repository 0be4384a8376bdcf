//! The items of a round, each with its steps.
ghost use Rattle.std.specs.Prelude.{◌≡◌, List, IfOk, OnOk, length, map};
ghost use Rattle.wy_prove_drafts.specs.Draft.{IsDraft, seen_draft};
ghost use Rattle.wy_facts.specs.Membership.{AreTypesBelow};
ghost use Rattle.wy_facts.specs.Seen.{AreBelow, Stays};
ghost use Rattle.wy_prove_drafts.specs.wy_check_nodes.Seen.{IsBranch, seen_branch};
ghost use Rattle.wy_prove_drafts.specs.wy_search_spec.Expansion as search;
ghost use Rattle.wy_search.specs.StatedSeen.{IsSpot, seen_spot};
ghost use Rattle.wy_search.specs.Turns.{begun, index_terms_in};
ghost use Rattle.wy_term.specs.Condition.{Entry, condition_of};
ghost use Rattle.wy_term.specs.Nodes.{tree_at};
ghost use Rattle.wy_prove_rounds.specs.Moving.{Reaches};
ghost use Rattle.wy_prove_rounds.specs.Rounds.{IsBeside};

use crate::facts::write_facts;
use crate::instances::write_instances;
use crate::products::write_products;
use crate::witnesses::write_witnesses;
use wy_prove_drafts::{Branch, Draft, add_all};
use wy_search::{
    Spot, facts_of, index_terms, no_forms, products_of, with_instances, with_witnesses,
};
use wy_term::{Cond, NoMemory, Terms};

/// The witnesses of the node's literals.
pub fn add_witnesses(terms: &mut Terms, draft: &mut Draft, spot: Spot) -> Result<Spot, NoMemory>
    requires draft { IsDraft terms.old draft.old }
    requires spot { IsSpot terms.old spot }
    ensures seen { IfOk result (λ q. seen_spot (tree_at terms.new) q ≡ search.with_witnesses (seen_spot (tree_at terms.old) spot) (seen_branch (tree_at terms.old) spot.branch).literals) }
    ensures value { (types : List Entry) → IsBeside types (seen_spot (tree_at terms.old) spot) (seen_draft (tree_at terms.old) draft.old) → OnOk result (Reaches types (search.with_witnesses (seen_spot (tree_at terms.old) spot) (seen_branch (tree_at terms.old) spot.branch).literals) (seen_draft (tree_at terms.old) draft.old) (seen_draft (tree_at terms.new) draft.new)) }
    ensures spot { IfOk result (IsSpot terms.new) }
    ensures draft { OnOk result (IsDraft terms.new draft.new) }
    ensures stays { Stays terms.old terms.new }
{
    write_witnesses(terms, draft, &spot)?;
    with_witnesses(terms, spot)
}

/// The instances of the node's literals, where these are the names of witnesses.
pub fn add_instances(
    terms: &mut Terms,
    draft: &mut Draft,
    branch: &mut Branch,
    names: &[u32],
) -> Result<(), NoMemory>
    requires draft { IsDraft terms.old draft.old }
    requires branch { IsBranch terms.old branch.old }
    requires names { AreBelow (length terms.old) names.now }
    ensures seen { OnOk result (seen_branch (tree_at terms.new) branch.new ≡ search.with_instances (seen_branch (tree_at terms.old) branch.old) (seen_branch (tree_at terms.old) branch.old).literals (index_terms_in (seen_branch (tree_at terms.old) branch.old) (map (tree_at terms.old) names.now))) }
    ensures value { (types : List Entry) → IsBeside types (begun (seen_branch (tree_at terms.old) branch.old)) (seen_draft (tree_at terms.old) draft.old) → OnOk result (Reaches types (begun (seen_branch (tree_at terms.new) branch.new)) (seen_draft (tree_at terms.old) draft.old) (seen_draft (tree_at terms.new) draft.new)) }
    ensures branch { OnOk result (IsBranch terms.new branch.new) }
    ensures draft { OnOk result (IsDraft terms.new draft.new) }
    ensures stays { Stays terms.old terms.new }
{
    let indices = index_terms(terms, branch, names)?;
    write_instances(terms, draft, branch, &indices)?;
    with_instances(terms, branch, &indices)
}

/// The facts of all schemas.
pub fn add_facts(
    terms: &mut Terms,
    cond: &Cond,
    draft: &mut Draft,
    branch: &mut Branch,
) -> Result<(), NoMemory>
    requires types { AreTypesBelow (length terms.old) cond.now }
    requires draft { IsDraft terms.old draft.old }
    requires branch { IsBranch terms.old branch.old }
    ensures seen { OnOk result (seen_branch (tree_at terms.new) branch.new ≡ search.with_facts (condition_of terms.old cond.now).types (seen_branch (tree_at terms.old) branch.old)) }
    ensures value { IsBeside (condition_of terms.old cond.now).types (begun (seen_branch (tree_at terms.old) branch.old)) (seen_draft (tree_at terms.old) draft.old) → OnOk result (Reaches (condition_of terms.old cond.now).types (begun (seen_branch (tree_at terms.new) branch.new)) (seen_draft (tree_at terms.old) draft.old) (seen_draft (tree_at terms.new) draft.new)) }
    ensures branch { OnOk result (IsBranch terms.new branch.new) }
    ensures draft { OnOk result (IsDraft terms.new draft.new) }
    ensures stays { Stays terms.old terms.new }
{
    write_facts(terms, cond, draft, branch)?;
    let facts = facts_of(terms, cond, branch)?;
    add_all(terms, branch, &facts)
}

/// The products of bounds.
pub fn add_products(
    terms: &mut Terms,
    draft: &mut Draft,
    branch: &mut Branch,
) -> Result<(), NoMemory>
    requires draft { IsDraft terms.old draft.old }
    requires branch { IsBranch terms.old branch.old }
    ensures seen { OnOk result (seen_branch (tree_at terms.new) branch.new ≡ search.with_products (seen_branch (tree_at terms.old) branch.old)) }
    ensures value { (types : List Entry) → IsBeside types (begun (seen_branch (tree_at terms.old) branch.old)) (seen_draft (tree_at terms.old) draft.old) → OnOk result (Reaches types (begun (seen_branch (tree_at terms.new) branch.new)) (seen_draft (tree_at terms.old) draft.old) (seen_draft (tree_at terms.new) draft.new)) }
    ensures branch { OnOk result (IsBranch terms.new branch.new) }
    ensures draft { OnOk result (IsDraft terms.new draft.new) }
    ensures stays { Stays terms.old terms.new }
{
    let mut known = no_forms(terms.allocator(), terms.len());
    write_products(terms, &mut known, draft, branch)?;
    let products = products_of(terms, &mut known, branch)?;
    add_all(terms, branch, &products)
}
