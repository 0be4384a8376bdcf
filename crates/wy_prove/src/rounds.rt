//! How a node goes on that is open and splits on nothing.
ghost use Rattle.std.specs.Prelude.{◌≡◌, ◌<◌, ◌||◌, nat_lt, IfOk, IfSome, OnOk, length};
ghost use Rattle.wy_prove.specs.Turns.{IsRound};
ghost use Rattle.wy_prove_rounds.specs.wy_prove_drafts.Draft.{IsDraft, seen_draft};
ghost use Rattle.wy_facts.specs.Membership.{AreTypesBelow};
ghost use Rattle.wy_facts.specs.Seen.{Stays};
ghost use Rattle.wy_prove_leaves.specs.wy_search_spec.Bounds.{Ending};
ghost use Rattle.wy_prove_rounds.specs.wy_search.StatedSeen.{seen_spot, IsSpot};
ghost use Rattle.wy_term.specs.Condition.{condition_of};
ghost use Rattle.wy_term.specs.Nodes.{tree_at};
ghost use Rattle.wy_prove_rounds.specs.Rounds.{IsBeside};

use wy_prove_explaining::Branch;
use wy_prove_rounds::{Draft, Spot, write_round};
use wy_term::{Cond, NoMemory, Terms};

// How many literals and pending formulas a node has.
#[derive(Clone, Copy)]
struct Size {
    literals: usize,
    pending: usize,
}

fn size_of(branch: &Branch) -> Size
    ensures literals { result.literals ≡ length branch.now.literals.keys }
    ensures pending { result.pending ≡ length branch.now.pending.keys }
{
    Size {
        literals: branch.literals.len(),
        pending: branch.pending.len(),
    }
}

// Whether the second size is the greater one.
fn is_more(old: Size, new: Size) -> bool
    ensures { result ≡ (nat_lt old.literals new.literals || nat_lt old.pending new.pending) }
{
    if old.literals < new.literals {
        return true;
    }
    old.pending < new.pending
}

/// A round of the search at a node and its steps written to a draft, at most two on a path, and the node behind it, if it adds
/// something. Older numbers name what they named.
pub fn round(
    terms: &mut Terms,
    cond: &Cond,
    draft: &mut Draft,
    spot: Spot,
) -> Result<Option<Spot>, NoMemory>
    requires types { AreTypesBelow (length terms.old) cond.now }
    requires draft { IsDraft terms.old draft.old }
    requires spot { IsSpot terms.old spot }
    ensures value { (e : Ending) → IsBeside (condition_of terms.old cond.now).types (seen_spot (tree_at terms.old) spot) (seen_draft (tree_at terms.old) draft.old) → IfOk result (IsRound (condition_of terms.old cond.now).types (seen_spot (tree_at terms.old) spot) e (tree_at terms.new) (seen_draft (tree_at terms.old) draft.old) (seen_draft (tree_at terms.new) draft.new)) }
    ensures spot { IfOk result (λ o. IfSome o (IsSpot terms.new)) }
    ensures draft { OnOk result (IsDraft terms.new draft.new) }
    ensures stays { Stays terms.old terms.new }
{
    if spot.rounds >= 2 {
        return Ok(None);
    }
    let before = size_of(&spot.branch);
    let more = write_round(terms, cond, draft, spot)?;
    let after = size_of(&more.branch);
    if is_more(before, after) {
        Ok(Some(more))
    } else {
        Ok(None)
    }
}
