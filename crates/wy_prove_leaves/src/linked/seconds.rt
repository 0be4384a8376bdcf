//! Chains between terms of one class.
ghost use Rattle.std.specs.Prelude.{◌<◌, List, IfOk, OnOk, length};
ghost use Rattle.wy_prove_drafts.specs.wy_cong.Seen.{IsPresent};
ghost use Rattle.wy_prove_drafts.specs.Draft.{IsDraft, seen_draft};
ghost use Rattle.wy_facts.specs.Seen.{Stays};
ghost use Rattle.wy_prove_leaves.specs.linked.Grown.{Grows};
ghost use Rattle.wy_prove_leaves.specs.linked.Links.{ArePresent, IsOneOf, IsSaturated, SecondAddsNothing, SecondsAddNothing};
ghost use Rattle.wy_term.specs.Condition.{Entry};
ghost use Rattle.wy_term.specs.Nodes.{tree_at};
ghost use Rattle.wy_term.specs.Term.{Term};

use crate::linked::chains::link;
use crate::linked::labelled::Labelled;
use crate::linked::thirds::link_thirds;
use wy_prove_drafts::{Draft, in_one_class};
use wy_term::{NoMemory, Terms};

// The chains of two terms, and of these and a third one, if they are of one class. Says whether they added anything.
fn link_second(
    terms: &mut Terms,
    draft: &mut Draft,
    labelled: &Labelled,
    s: u32,
    t: u32,
) -> Result<bool, NoMemory>
    requires draft { IsDraft terms.old draft.old }
    requires present { IsPresent terms.old labelled.now.present }
    requires first { s < length terms.old }
    requires second { t < length terms.old }
    ensures value { (types : List Entry) (ts : List Term) (v w : Term) → ArePresent terms.old labelled.now.present ts → IsOneOf terms.old ts s v → IsOneOf terms.old ts t w → IfOk result (Grows types (SecondAddsNothing ts labelled.now.labels.items v w) (seen_draft (tree_at terms.old) draft.old) (seen_draft (tree_at terms.new) draft.new)) }
    ensures draft { OnOk result (IsDraft terms.new draft.new) }
    ensures stays { Stays terms.old terms.new }
{
    if !in_one_class(terms, &labelled.present, &labelled.labels, s, t) {
        return Ok(false);
    }
    let grew = link(terms, draft, &[s, t])?;
    let more = link_thirds(terms, draft, labelled, s, t)?;
    Ok(grew | more)
}

// So for a term and each other.
fn link_seconds(
    terms: &mut Terms,
    draft: &mut Draft,
    labelled: &Labelled,
    s: u32,
) -> Result<bool, NoMemory>
    requires draft { IsDraft terms.old draft.old }
    requires present { IsPresent terms.old labelled.now.present }
    requires first { s < length terms.old }
    ensures value { (types : List Entry) (ts : List Term) (v : Term) → ArePresent terms.old labelled.now.present ts → IsOneOf terms.old ts s v → IfOk result (Grows types (SecondsAddNothing ts labelled.now.labels.items v) (seen_draft (tree_at terms.old) draft.old) (seen_draft (tree_at terms.new) draft.new)) }
    ensures draft { OnOk result (IsDraft terms.new draft.new) }
    ensures stays { Stays terms.old terms.new }
{
    let mut grew = false;
    for j in 0..labelled.present.numbers.len() {
        let more = link_second(terms, draft, labelled, s, labelled.present.numbers[j])?;
        grew |= more;
    }
    Ok(grew)
}

/// The chains of two terms of one class and of three, one after the other: those that are valid and add anything are written. Says whether
/// any was. It takes the time of a chain for each three terms of one class.
pub fn link_all(terms: &mut Terms, draft: &mut Draft, labelled: &Labelled) -> Result<bool, NoMemory>
    requires draft { IsDraft terms.old draft.old }
    requires present { IsPresent terms.old labelled.now.present }
    ensures value { (types : List Entry) (ts : List Term) → ArePresent terms.old labelled.now.present ts → IfOk result (Grows types (IsSaturated ts labelled.now.labels.items) (seen_draft (tree_at terms.old) draft.old) (seen_draft (tree_at terms.new) draft.new)) }
    ensures draft { OnOk result (IsDraft terms.new draft.new) }
    ensures stays { Stays terms.old terms.new }
{
    let mut grew = false;
    for i in 0..labelled.present.numbers.len() {
        let more = link_seconds(terms, draft, labelled, labelled.present.numbers[i])?;
        grew |= more;
    }
    Ok(grew)
}
