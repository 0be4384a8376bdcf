//! A round of expansion.
ghost use Rattle.std.specs.Prelude.{◌≡◌, ◌<◌, length, map, IfOk, OnOk};
ghost use Rattle.wy_search_bounds.specs.Known.{AreKnown};
ghost use Rattle.wy_facts.specs.Membership.{AreTypesBelow};
ghost use Rattle.wy_facts.specs.Seen.{AreBelow, Stays};
ghost use Rattle.wy_search_facts.specs.Seen.{seen_spot, IsSpot};
ghost use Rattle.wy_check_nodes.specs.Seen.{seen_branch, IsBranch};
ghost use Rattle.wy_search_facts.specs.wy_search_spec.Expansion as search;
ghost use Rattle.wy_search.specs.Turns.{index_terms_in};
ghost use Rattle.wy_term.specs.Condition.{condition_of};
ghost use Rattle.wy_term.specs.Nodes.{tree_at};

use wy_check_nodes::{Branch, add_all};
use wy_search_bounds::{KnownForms, products_of};
use wy_search_facts::{Spot, facts_of, index_terms, with_instances, with_witnesses};
use wy_term::{Cond, NoMemory, Terms};

// The instances of the node's literals, where these are the names of witnesses.
fn add_instances(terms: &mut Terms, branch: &mut Branch, names: &[u32]) -> Result<(), NoMemory>
    requires branch { IsBranch terms.old branch.old }
    requires names { AreBelow (length terms.old) names.now }
    ensures value { OnOk result (seen_branch (tree_at terms.new) branch.new ≡ search.with_instances (seen_branch (tree_at terms.old) branch.old) (seen_branch (tree_at terms.old) branch.old).literals (index_terms_in (seen_branch (tree_at terms.old) branch.old) (map (tree_at terms.old) names.now))) }
    ensures branch { OnOk result (IsBranch terms.new branch.new) }
    ensures stays { Stays terms.old terms.new }
{
    let indices = index_terms(terms, branch, names)?;
    with_instances(terms, branch, &indices)
}

// The facts of all schemas.
fn add_facts(terms: &mut Terms, cond: &Cond, branch: &mut Branch) -> Result<(), NoMemory>
    requires types { AreTypesBelow (length terms.old) cond.now }
    requires branch { IsBranch terms.old branch.old }
    ensures value { OnOk result (seen_branch (tree_at terms.new) branch.new ≡ search.with_facts (condition_of terms.old cond.now).types (seen_branch (tree_at terms.old) branch.old)) }
    ensures branch { OnOk result (IsBranch terms.new branch.new) }
    ensures stays { Stays terms.old terms.new }
{
    let facts = facts_of(terms, cond, branch)?;
    add_all(terms, branch, &facts)
}

// The products of bounds.
fn add_products(
    terms: &mut Terms,
    known: &mut KnownForms,
    branch: &mut Branch,
) -> Result<(), NoMemory>
    requires branch { IsBranch terms.old branch.old }
    requires known { AreKnown terms.old known.old }
    ensures value { OnOk result (seen_branch (tree_at terms.new) branch.new ≡ search.with_products (seen_branch (tree_at terms.old) branch.old)) }
    ensures branch { OnOk result (IsBranch terms.new branch.new) }
    ensures known { OnOk result (AreKnown terms.new known.new) }
    ensures stays { Stays terms.old terms.new }
{
    let products = products_of(terms, known, branch)?;
    add_all(terms, branch, &products)
}

// What a round adds to a node behind its witnesses, whose names these are.
fn grow(
    terms: &mut Terms,
    known: &mut KnownForms,
    cond: &Cond,
    branch: &mut Branch,
    names: &[u32],
) -> Result<(), NoMemory>
    requires types { AreTypesBelow (length terms.old) cond.now }
    requires known { AreKnown terms.old known.old }
    requires branch { IsBranch terms.old branch.old }
    requires names { AreBelow (length terms.old) names.now }
    ensures value { OnOk result (seen_branch (tree_at terms.new) branch.new ≡ search.with_products (search.with_facts (condition_of terms.old cond.now).types (search.with_instances (seen_branch (tree_at terms.old) branch.old) (seen_branch (tree_at terms.old) branch.old).literals (index_terms_in (seen_branch (tree_at terms.old) branch.old) (map (tree_at terms.old) names.now))))) }
    ensures branch { OnOk result (IsBranch terms.new branch.new) }
    ensures known { OnOk result (AreKnown terms.new known.new) }
    ensures stays { Stays terms.old terms.new }
{
    add_instances(terms, branch, names)?;
    add_facts(terms, cond, branch)?;
    add_products(terms, known, branch)
}

/// One round: witnesses, instances, facts, products, each read from the node as the item before left it. Older numbers name
/// what they named.
pub fn expanded(
    terms: &mut Terms,
    known: &mut KnownForms,
    cond: &Cond,
    spot: Spot,
) -> Result<Spot, NoMemory>
    requires types { AreTypesBelow (length terms.old) cond.now }
    requires known { AreKnown terms.old known.old }
    requires spot { IsSpot terms.old spot }
    requires rounds { spot.rounds < 2 }
    ensures value { IfOk result (λ p. seen_spot (tree_at terms.new) p ≡ search.expanded (condition_of terms.old cond.now).types (seen_spot (tree_at terms.old) spot)) }
    ensures spot { IfOk result (IsSpot terms.new) }
    ensures known { OnOk result (AreKnown terms.new known.new) }
    ensures stays { Stays terms.old terms.new }
{
    let rounds = spot.rounds + 1;
    let found = with_witnesses(terms, spot)?;
    let Spot {
        mut branch,
        had,
        names,
        rounds: _,
    } = found;
    grow(terms, known, cond, &mut branch, &names)?;
    Ok(Spot {
        branch,
        had,
        names,
        rounds,
    })
}
