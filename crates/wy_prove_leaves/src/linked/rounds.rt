//! Rounds of chains.
ghost use Rattle.std.specs.Prelude.{List, OnOk};
ghost use Rattle.wy_prove_drafts.specs.wy_cong.Seen.{IsPresent};
ghost use Rattle.wy_prove_drafts.specs.Draft.{IsDraft, seen_draft};
ghost use Rattle.wy_prove_drafts.specs.Progress.{Goes};
ghost use Rattle.wy_facts.specs.Seen.{Stays};
ghost use Rattle.wy_prove_leaves.specs.linked.Links.{ArePresent, IsSaturated};
ghost use Rattle.wy_term.specs.Condition.{Entry};
ghost use Rattle.wy_term.specs.Nodes.{tree_at};
ghost use Rattle.wy_term.specs.Term.{Term};

use crate::linked::labelled::Labelled;
use crate::linked::seconds::link_all;
use wy_prove_drafts::Draft;
use wy_term::{NoMemory, Terms};

/// Writes chains between terms of one class until none adds anything.
pub fn saturate(terms: &mut Terms, draft: &mut Draft, labelled: &Labelled) -> Result<(), NoMemory>
    requires draft { IsDraft terms.old draft.old }
    requires present { IsPresent terms.old labelled.now.present }
    ensures goes { (types : List Entry) (ts : List Term) → ArePresent terms.old labelled.now.present ts → OnOk result (Goes types (seen_draft (tree_at terms.old) draft.old) (seen_draft (tree_at terms.new) draft.new)) }
    ensures saturated { (ts : List Term) → ArePresent terms.old labelled.now.present ts → OnOk result (IsSaturated ts labelled.now.labels.items (seen_draft (tree_at terms.new) draft.new).node) }
    ensures draft { OnOk result (IsDraft terms.new draft.new) }
    ensures stays { Stays terms.old terms.new }
{
    for _round in 0..u64::MAX {
        if !link_all(terms, draft, labelled)? {
            return Ok(());
        }
    }
    Err(NoMemory)
}
