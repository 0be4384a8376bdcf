//! Nodes that are closed by their formulas, or by one literal or two.
ghost use Rattle.std.specs.Prelude.{◌≡◌, List, length, IfOk, OnOk};
ghost use Rattle.wy_prove_drafts.specs.Draft.{IsDraft, seen_draft};
ghost use Rattle.wy_prove_leaves.specs.linked.Ended.{ClashesWithNone, EndsUnless, IsOpen, NoTwoClash, NoneClashes};
ghost use Rattle.wy_term.specs.Condition.{Entry};
ghost use Rattle.wy_term.specs.Nodes.{tree_at};

use wy_prove_drafts::{Draft, close_by_clash, close_by_shut};
use wy_term::{NoMemory, Terms};

// How many literals a node has; 2^32 or more are answered as want of memory.
fn literal_count(draft: &Draft) -> Result<u32, NoMemory>
    ensures { IfOk result (λ n. n ≡ length draft.now.branch.literals.keys) }
{
    match u32::try_from(draft.branch.literals.len()) {
        Ok(n) => Ok(n),
        Err(_) => Err(NoMemory),
    }
}

// Writes `clash` of a literal that can't be, if there is one, and says whether it did.
fn close_by_one(terms: &Terms, draft: &mut Draft) -> Result<bool, NoMemory>
    requires draft { IsDraft terms.now draft.old }
    ensures value { (types : List Entry) → IfOk result (EndsUnless (λ node. NoneClashes node.literals) types (seen_draft (tree_at terms.now) draft.old) (seen_draft (tree_at terms.now) draft.new)) }
    ensures draft { OnOk result (IsDraft terms.now draft.new) }
{
    let count = literal_count(draft)?;
    for i in 0..count {
        if close_by_clash(terms, draft, i + 1, None)? {
            return Ok(true);
        }
    }
    Ok(false)
}

// Writes `clash` of the literal with a number and another, if these can't be together, and says whether it did.
fn close_with(terms: &Terms, draft: &mut Draft, i: u32) -> Result<bool, NoMemory>
    requires draft { IsDraft terms.now draft.old }
    ensures value { (types : List Entry) → IfOk result (EndsUnless (λ node. ClashesWithNone node.literals i) types (seen_draft (tree_at terms.now) draft.old) (seen_draft (tree_at terms.now) draft.new)) }
    ensures draft { OnOk result (IsDraft terms.now draft.new) }
{
    let count = literal_count(draft)?;
    for j in 0..count {
        if close_by_clash(terms, draft, i, Some(j + 1))? {
            return Ok(true);
        }
    }
    Ok(false)
}

// Writes `clash` of two literals that can't be together, if there are two, and says whether it did.
fn close_by_two(terms: &Terms, draft: &mut Draft) -> Result<bool, NoMemory>
    requires draft { IsDraft terms.now draft.old }
    ensures value { (types : List Entry) → IfOk result (EndsUnless (λ node. NoTwoClash node.literals) types (seen_draft (tree_at terms.now) draft.old) (seen_draft (tree_at terms.now) draft.new)) }
    ensures draft { OnOk result (IsDraft terms.now draft.new) }
{
    let count = literal_count(draft)?;
    for i in 0..count {
        if close_with(terms, draft, i + 1)? {
            return Ok(true);
        }
    }
    Ok(false)
}

/// Writes `shut` or a `clash`, if one closes the node, and says whether it did. It takes the time of a `clash` for each two literals.
pub fn close_at_once(terms: &Terms, draft: &mut Draft) -> Result<bool, NoMemory>
    requires draft { IsDraft terms.now draft.old }
    ensures value { (types : List Entry) → IfOk result (EndsUnless IsOpen types (seen_draft (tree_at terms.now) draft.old) (seen_draft (tree_at terms.now) draft.new)) }
    ensures draft { OnOk result (IsDraft terms.now draft.new) }
{
    if close_by_shut(terms, draft)? {
        return Ok(true);
    }
    if close_by_one(terms, draft)? {
        return Ok(true);
    }
    close_by_two(terms, draft)
}
