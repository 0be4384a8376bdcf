//! Steps that close a node, and splits.
ghost use Rattle.std.specs.Prelude.{◌≡◌, ◌<◌, List, IfOk, OnOk, length, map};
ghost use Rattle.wy_cert.specs.Steps.{clash, shut, split, sum_of};
ghost use Rattle.wy_prove_drafts.specs.Draft.{IsDraft, seen_draft};
ghost use Rattle.wy_prove_drafts.specs.Progress.{Closes, Splits};
ghost use Rattle.wy_facts.specs.Seen.{Stays};
ghost use Rattle.wy_term.specs.Condition.{Entry};
ghost use Rattle.wy_term.specs.Nodes.{tree_at};

use crate::draft::Draft;
use crate::putting::put;
use wy_cert::Step;
use wy_check_nodes::{is_refuting, is_shut};
use wy_check_splits::{is_atom, is_clash};
use wy_term::{NoMemory, Terms};

/// Writes `shut`, where the node can't be, and says whether it did.
pub fn close_by_shut(terms: &Terms, draft: &mut Draft) -> Result<bool, NoMemory>
    requires draft { IsDraft terms.now draft.old }
    ensures value { (types : List Entry) → IfOk result (Closes types shut (seen_draft (tree_at terms.now) draft.old) (seen_draft (tree_at terms.now) draft.new)) }
    ensures draft { OnOk result (IsDraft terms.now draft.new) }
{
    if !is_shut(terms, &draft.branch)? {
        return Ok(false);
    }
    put(terms, draft, Step::Shut)?;
    Ok(true)
}

/// Writes `clash` of one literal or two by their numbers, where these can't be, and says whether it did.
pub fn close_by_clash(
    terms: &Terms,
    draft: &mut Draft,
    i: u32,
    other: Option<u32>,
) -> Result<bool, NoMemory>
    requires draft { IsDraft terms.now draft.old }
    ensures value { (types : List Entry) → IfOk result (Closes types (clash i other) (seen_draft (tree_at terms.now) draft.old) (seen_draft (tree_at terms.now) draft.new)) }
    ensures draft { OnOk result (IsDraft terms.now draft.new) }
{
    match is_clash(terms, &draft.branch, i, other)? {
        Some(true) => {
            put(terms, draft, Step::Clash(i, other))?;
            Ok(true)
        }
        _ => Ok(false),
    }
}

/// Writes `sum` of literals by their multipliers and numbers, where that refutes, and says whether it did.
pub fn close_by_sum(
    terms: &mut Terms,
    draft: &mut Draft,
    pairs: Vec<(u128, u32)>,
) -> Result<bool, NoMemory>
    requires draft { IsDraft terms.old draft.old }
    ensures value { (types : List Entry) → IfOk result (Closes types (sum_of pairs.items) (seen_draft (tree_at terms.old) draft.old) (seen_draft (tree_at terms.new) draft.new)) }
    ensures draft { OnOk result (IsDraft terms.new draft.new) }
    ensures stays { Stays terms.old terms.new }
{
    if !is_refuting(terms, &draft.branch, &pairs)? {
        return Ok(false);
    }
    put(terms, draft, Step::Sum(pairs))?;
    Ok(true)
}

/// Writes `split` on a formula, where that is an atom, and says whether it did. The node stays as it is: it is for the caller to go on
/// with the first of the two, and then with the second.
pub fn write_split(terms: &Terms, draft: &mut Draft, atom: u32) -> Result<bool, NoMemory>
    requires draft { IsDraft terms.now draft.old }
    requires atom { atom < length terms.now }
    ensures value { IfOk result (Splits (tree_at terms.now atom) (seen_draft (tree_at terms.now) draft.old) (seen_draft (tree_at terms.now) draft.new)) }
    ensures draft { OnOk result (IsDraft terms.now draft.new) }
    ensures branch { draft.new.branch ≡ draft.old.branch }
{
    if !is_atom(terms, atom) {
        return Ok(false);
    }
    put(terms, draft, Step::Split(atom))?;
    Ok(true)
}
