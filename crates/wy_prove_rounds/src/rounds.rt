//! A round, with its steps.
ghost use Rattle.std.specs.Prelude.{◌≡◌, ◌<◌, IfOk, OnOk, length, map};
ghost use Rattle.wy_prove_drafts.specs.Draft.{IsDraft, seen_draft};
ghost use Rattle.wy_facts.specs.Membership.{AreTypesBelow};
ghost use Rattle.wy_facts.specs.Seen.{AreBelow, Stays};
ghost use Rattle.wy_prove_drafts.specs.wy_check_nodes.Seen.{IsBranch, seen_branch};
ghost use Rattle.wy_prove_drafts.specs.wy_search_spec.Expansion as search;
ghost use Rattle.wy_search.specs.StatedSeen.{IsSpot, seen_spot};
ghost use Rattle.wy_search.specs.Turns.{begun, index_terms_in};
ghost use Rattle.wy_term.specs.Condition.{condition_of};
ghost use Rattle.wy_term.specs.Nodes.{tree_at};
ghost use Rattle.wy_prove_rounds.specs.Moving.{Reaches};
ghost use Rattle.wy_prove_rounds.specs.Rounds.{GoesBeside, IsBeside};

use crate::expanding::{add_facts, add_instances, add_products, add_witnesses};
use wy_prove_drafts::{Branch, Draft};
use wy_search::Spot;
use wy_term::{Cond, NoMemory, Terms};

// What a round adds to a node behind its witnesses, whose names these are.
fn grow(
    terms: &mut Terms,
    cond: &Cond,
    draft: &mut Draft,
    branch: &mut Branch,
    names: &[u32],
) -> Result<(), NoMemory>
    requires types { AreTypesBelow (length terms.old) cond.now }
    requires draft { IsDraft terms.old draft.old }
    requires branch { IsBranch terms.old branch.old }
    requires names { AreBelow (length terms.old) names.now }
    ensures seen { OnOk result (seen_branch (tree_at terms.new) branch.new ≡ search.with_products (search.with_facts (condition_of terms.old cond.now).types (search.with_instances (seen_branch (tree_at terms.old) branch.old) (seen_branch (tree_at terms.old) branch.old).literals (index_terms_in (seen_branch (tree_at terms.old) branch.old) (map (tree_at terms.old) names.now))))) }
    ensures value { IsBeside (condition_of terms.old cond.now).types (begun (seen_branch (tree_at terms.old) branch.old)) (seen_draft (tree_at terms.old) draft.old) → OnOk result (Reaches (condition_of terms.old cond.now).types (begun (seen_branch (tree_at terms.new) branch.new)) (seen_draft (tree_at terms.old) draft.old) (seen_draft (tree_at terms.new) draft.new)) }
    ensures branch { OnOk result (IsBranch terms.new branch.new) }
    ensures draft { OnOk result (IsDraft terms.new draft.new) }
    ensures stays { Stays terms.old terms.new }
{
    add_instances(terms, draft, branch, names)?;
    add_facts(terms, cond, draft, branch)?;
    add_products(terms, draft, branch)
}

/// One round of the search at a node of a path, and its steps written to a draft whose node has at least as much. The node behind the
/// round.
pub fn write_round(
    terms: &mut Terms,
    cond: &Cond,
    draft: &mut Draft,
    spot: Spot,
) -> Result<Spot, NoMemory>
    requires types { AreTypesBelow (length terms.old) cond.now }
    requires draft { IsDraft terms.old draft.old }
    requires spot { IsSpot terms.old spot }
    requires rounds { spot.rounds < 2 }
    ensures seen { IfOk result (λ q. seen_spot (tree_at terms.new) q ≡ search.expanded (condition_of terms.old cond.now).types (seen_spot (tree_at terms.old) spot)) }
    ensures value { IsBeside (condition_of terms.old cond.now).types (seen_spot (tree_at terms.old) spot) (seen_draft (tree_at terms.old) draft.old) → OnOk result (GoesBeside (condition_of terms.old cond.now).types (seen_spot (tree_at terms.old) spot) (seen_draft (tree_at terms.old) draft.old) (seen_draft (tree_at terms.new) draft.new)) }
    ensures spot { IfOk result (IsSpot terms.new) }
    ensures draft { OnOk result (IsDraft terms.new draft.new) }
    ensures stays { Stays terms.old terms.new }
{
    let rounds = spot.rounds + 1;
    let found = add_witnesses(terms, draft, spot)?;
    let Spot {
        mut branch,
        had,
        names,
        rounds: _,
    } = found;
    grow(terms, cond, draft, &mut branch, &names)?;
    Ok(Spot {
        branch,
        had,
        names,
        rounds,
    })
}
