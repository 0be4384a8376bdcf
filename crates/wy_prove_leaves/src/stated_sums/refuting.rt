//! Nodes that elimination refutes, closed.
ghost use Rattle.std.specs.Prelude.{List, IfOk, OnOk};
ghost use Rattle.wy_prove_drafts.specs.Draft.{IsDraft, seen_draft};
ghost use Rattle.wy_facts.specs.Seen.{Stays};
ghost use Rattle.wy_prove_drafts.specs.wy_check_spec.judge.Node.{Node};
ghost use Rattle.wy_prove_drafts.specs.wy_check_nodes.Seen.{seen_branch, IsBranch};
ghost use Rattle.wy_prove_leaves.specs.linked.Linked.{AreLinkedClasses, IsBase};
ghost use Rattle.wy_search_spec.specs.Bounds as bounds;
ghost use Rattle.wy_search_spec.specs.Classes.{classes};
ghost use Rattle.wy_search_spec.specs.Standing.{present};
ghost use Rattle.wy_prove_leaves.specs.stated_sums.Refuted.{EndsIfRefuted};
ghost use Rattle.wy_prove_leaves.specs.stated_sums.Replacing.{AreStated, IsLinked};
ghost use Rattle.wy_term.specs.Condition.{Entry};
ghost use Rattle.wy_term.specs.Nodes.{tree_at};

use crate::stated_sums::classed::classes_of;
use crate::stated_sums::literals::take_literal;
use crate::stated_sums::stated::{Stated, Turn, nothing_stated};
use crate::stated_sums::steps::write_steps;
use wy_lin_eliminate::{Elim, eliminate};
use wy_prove_drafts::{Branch, Draft};
use wy_term::{NoMemory, Terms};

// Writes the steps by which elimination refutes the forms of a node, where all are stated, and says whether it did.
fn close_by_forms(terms: &mut Terms, draft: &mut Draft, stated: Stated) -> Result<bool, NoMemory>
    requires draft { IsDraft terms.old draft.old }
    ensures value { (types : List Entry) (base : Node) → IsLinked base (seen_draft (tree_at terms.old) draft.old).node → AreStated base (seen_draft (tree_at terms.old) draft.old).node.literals (bounds.replaced_forms (present base) (classes (present base) base.literals) base.literals) stated → IfOk result (EndsIfRefuted types base (seen_draft (tree_at terms.old) draft.old) (seen_draft (tree_at terms.new) draft.new)) }
    ensures draft { OnOk result (IsDraft terms.new draft.new) }
    ensures stays { Stays terms.old terms.new }
{
    if stated.leaves {
        return Ok(false);
    }
    match eliminate(terms.allocator(), stated.forms) {
        Ok(Elim::Refuted(steps)) => write_steps(
            terms,
            draft,
            stated.numbers,
            steps.list.as_slice(),
        ),
        Ok(_) => Ok(false),
        Err(_) => Err(NoMemory),
    }
}

/// Writes the cuts and the sum by which elimination refutes a node, the base, of which the draft's node has at least as much and joins the
/// classes, and says whether it did. It takes the time of elimination, and for each literal that of its form and of the cut that states
/// what replacing leaves of it.
pub fn close_by_elimination(
    terms: &mut Terms,
    draft: &mut Draft,
    base: &Branch,
) -> Result<bool, NoMemory>
    requires draft { IsDraft terms.old draft.old }
    requires base { IsBranch terms.old base.now }
    ensures value { (types : List Entry) → IsBase (seen_branch (tree_at terms.old) base.now) (seen_draft (tree_at terms.old) draft.old).node → AreLinkedClasses (seen_branch (tree_at terms.old) base.now) (seen_draft (tree_at terms.old) draft.old).node → IfOk result (EndsIfRefuted types (seen_branch (tree_at terms.old) base.now) (seen_draft (tree_at terms.old) draft.old) (seen_draft (tree_at terms.new) draft.new)) }
    ensures draft { OnOk result (IsDraft terms.new draft.new) }
    ensures stays { Stays terms.old terms.new }
{
    let classed = classes_of(terms, base)?;
    let mut stated = nothing_stated(terms.allocator());
    for i in 0..base.literals.len() {
        match take_literal(terms, draft, base, &classed, i, &mut stated)? {
            Turn::GoesOn => {}
            Turn::Closes => return Ok(true),
            Turn::Lacks => return Ok(false),
        }
    }
    close_by_forms(terms, draft, stated)
}
