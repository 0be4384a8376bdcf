//! Closed nodes of the search, closed in a draft.
ghost use Rattle.std.specs.Prelude.{◌≡◌, List, IfOk, OnOk};
ghost use Rattle.wy_prove.specs.Plans.{IsEnded};
ghost use Rattle.wy_prove.specs.Turns.{IsLeafOver};
ghost use Rattle.wy_prove_rounds.specs.wy_cong.Seen.{terms_of};
ghost use Rattle.wy_prove_leaves.specs.wy_search_laws.rounds.Leaves.{IsLeaf};
ghost use Rattle.wy_prove_rounds.specs.wy_prove_drafts.Draft.{IsDraft, seen_draft};
ghost use Rattle.wy_facts.specs.Seen.{Stays};
ghost use Rattle.wy_prove_explaining.specs.wy_check_nodes.Seen.{seen_branch, IsBranch};
ghost use Rattle.wy_prove_leaves.specs.linked.Linked.{IsBase};
ghost use Rattle.wy_prove_leaves.specs.wy_search_spec.Standing.{present};
ghost use Rattle.wy_prove_rounds.specs.wy_search.StatedSeen.{seen_spot};
ghost use Rattle.wy_term.specs.Condition.{Entry};
ghost use Rattle.wy_term.specs.Nodes.{tree_at};
ghost use Rattle.wy_prove_rounds.specs.Rounds.{IsBeside};

use crate::plans::follow;
use crate::turning::{Leaf, Plan};
use wy_prove_explaining::Branch;
use wy_prove_leaves::linked::close_by_classes;
use wy_prove_leaves::stated_sums::close_by_elimination;
use wy_prove_rounds::Draft;
use wy_term::{NoMemory, Terms};

// Closes the draft's node by chains that join the classes of a node, or by the steps of elimination.
fn close_plainly(terms: &mut Terms, draft: &mut Draft, base: &Branch) -> Result<bool, NoMemory>
    requires draft { IsDraft terms.old draft.old }
    requires base { IsBranch terms.old base.now }
    ensures value { (types : List Entry) → IsBase (seen_branch (tree_at terms.old) base.now) (seen_draft (tree_at terms.old) draft.old).node → IsLeaf (seen_branch (tree_at terms.old) base.now) → IfOk result (IsEnded types (seen_draft (tree_at terms.old) draft.old) (seen_draft (tree_at terms.new) draft.new)) }
    ensures draft { OnOk result (IsDraft terms.new draft.new) }
    ensures stays { Stays terms.old terms.new }
{
    if close_by_classes(terms, draft, base)? {
        return Ok(true);
    }
    close_by_elimination(terms, draft, base)
}

/// Closes the draft's node, beside a node that the search closes by its classes or by elimination: by the steps of its plan, or where
/// these don't, by steps that always do where the node's formulas are sorted and folded. Says whether it did.
pub fn close_leaf(terms: &mut Terms, draft: &mut Draft, leaf: &Leaf) -> Result<bool, NoMemory>
    requires draft { IsDraft terms.old draft.old }
    requires leaf { IsLeafOver terms.old leaf.now }
    ensures value { (types : List Entry) → IsBeside types (seen_spot (tree_at terms.old) leaf.now.spot) (seen_draft (tree_at terms.old) draft.old) → IsLeaf (seen_spot (tree_at terms.old) leaf.now.spot).node → terms_of (tree_at terms.old) leaf.now.plan.present ≡ present (seen_spot (tree_at terms.old) leaf.now.spot).node → IfOk result (IsEnded types (seen_draft (tree_at terms.old) draft.old) (seen_draft (tree_at terms.new) draft.new)) }
    ensures draft { OnOk result (IsDraft terms.new draft.new) }
    ensures stays { Stays terms.old terms.new }
{
    if follow(terms, draft, &leaf.plan.present.numbers, &leaf.plan.actions)? {
        return Ok(true);
    }
    close_plainly(terms, draft, &leaf.spot.branch)
}
