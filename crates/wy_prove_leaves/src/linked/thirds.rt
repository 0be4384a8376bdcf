//! Chains of three terms of one class.
ghost use Rattle.std.specs.Prelude.{◌<◌, List, IfOk, OnOk, length};
ghost use Rattle.wy_prove_drafts.specs.wy_cong.Seen.{IsPresent};
ghost use Rattle.wy_prove_drafts.specs.Draft.{IsDraft, seen_draft};
ghost use Rattle.wy_facts.specs.Seen.{Stays};
ghost use Rattle.wy_prove_leaves.specs.linked.Grown.{Grows};
ghost use Rattle.wy_prove_leaves.specs.linked.Links.{ArePresent, IsOneOf, ThirdAddsNothing, ThirdsAddNothing};
ghost use Rattle.wy_term.specs.Condition.{Entry};
ghost use Rattle.wy_term.specs.Nodes.{tree_at};
ghost use Rattle.wy_term.specs.Term.{Term};

use crate::linked::chains::link;
use crate::linked::labelled::Labelled;
use wy_prove_drafts::{Draft, in_one_class};
use wy_term::{NoMemory, Terms};

// The chain of three terms, if the last two are of one class. Says whether it added anything.
fn link_third(
    terms: &mut Terms,
    draft: &mut Draft,
    labelled: &Labelled,
    s: u32,
    t: u32,
    u: u32,
) -> Result<bool, NoMemory>
    requires draft { IsDraft terms.old draft.old }
    requires present { IsPresent terms.old labelled.now.present }
    requires first { s < length terms.old }
    requires second { t < length terms.old }
    requires third { u < length terms.old }
    ensures value { (types : List Entry) (ts : List Term) (v w x : Term) → ArePresent terms.old labelled.now.present ts → IsOneOf terms.old ts s v → IsOneOf terms.old ts t w → IsOneOf terms.old ts u x → IfOk result (Grows types (ThirdAddsNothing ts labelled.now.labels.items v w x) (seen_draft (tree_at terms.old) draft.old) (seen_draft (tree_at terms.new) draft.new)) }
    ensures draft { OnOk result (IsDraft terms.new draft.new) }
    ensures stays { Stays terms.old terms.new }
{
    if !in_one_class(terms, &labelled.present, &labelled.labels, t, u) {
        return Ok(false);
    }
    link(terms, draft, &[s, t, u])
}

/// The chains of two terms and each third one of their class. Says whether they added anything.
pub fn link_thirds(
    terms: &mut Terms,
    draft: &mut Draft,
    labelled: &Labelled,
    s: u32,
    t: u32,
) -> Result<bool, NoMemory>
    requires draft { IsDraft terms.old draft.old }
    requires present { IsPresent terms.old labelled.now.present }
    requires first { s < length terms.old }
    requires second { t < length terms.old }
    ensures value { (types : List Entry) (ts : List Term) (v w : Term) → ArePresent terms.old labelled.now.present ts → IsOneOf terms.old ts s v → IsOneOf terms.old ts t w → IfOk result (Grows types (ThirdsAddNothing ts labelled.now.labels.items v w) (seen_draft (tree_at terms.old) draft.old) (seen_draft (tree_at terms.new) draft.new)) }
    ensures draft { OnOk result (IsDraft terms.new draft.new) }
    ensures stays { Stays terms.old terms.new }
{
    let mut grew = false;
    for k in 0..labelled.present.numbers.len() {
        let more = link_third(terms, draft, labelled, s, t, labelled.present.numbers[k])?;
        grew |= more;
    }
    Ok(grew)
}
