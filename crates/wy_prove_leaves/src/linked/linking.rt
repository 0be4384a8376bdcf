//! Joining the classes of a node.
ghost use Rattle.std.specs.Prelude.{List, IfOk, OnOk};
ghost use Rattle.wy_prove_drafts.specs.Draft.{IsDraft, seen_draft};
ghost use Rattle.wy_facts.specs.Seen.{Stays};
ghost use Rattle.wy_prove_drafts.specs.wy_check_nodes.Seen.{seen_branch, IsBranch};
ghost use Rattle.wy_prove_leaves.specs.linked.Linked.{IsBase, LinksOrEnds};
ghost use Rattle.wy_term.specs.Condition.{Entry};
ghost use Rattle.wy_term.specs.Nodes.{tree_at};

use crate::linked::clashing::close_at_once;
use crate::linked::labelled::labelled_terms;
use crate::linked::rounds::saturate;
use wy_prove_drafts::{Branch, Draft};
use wy_search_spec::least::classes_are_least;
use wy_term::{NoMemory, Terms};

/// Writes chains that join the terms of each class of a node, the base, of which the draft's node has at least as much; where the draft's
/// node can then be shut, or literals of it clash, writes that too, and says whether it did. It writes chains until none adds anything:
/// each round takes the time of a chain for each three terms of one class.
pub fn close_by_classes(
    terms: &mut Terms,
    draft: &mut Draft,
    base: &Branch,
) -> Result<bool, NoMemory>
    requires draft { IsDraft terms.old draft.old }
    requires base { IsBranch terms.old base.now }
    ensures value { (types : List Entry) → IsBase (seen_branch (tree_at terms.old) base.now) (seen_draft (tree_at terms.old) draft.old).node → IfOk result (LinksOrEnds types (seen_branch (tree_at terms.old) base.now) (seen_draft (tree_at terms.old) draft.old) (seen_draft (tree_at terms.new) draft.new)) }
    ensures draft { OnOk result (IsDraft terms.new draft.new) }
    ensures stays { Stays terms.old terms.new }
{
    classes_are_least();
    let labelled = labelled_terms(terms, base)?;
    saturate(terms, draft, &labelled)?;
    close_at_once(terms, draft)
}
