//! What replacing leaves of a form, stated.
ghost use Rattle.std.specs.Prelude.{◌≡◌, ◌∷◌, ◌++◌, [], ℕ, List, IfOk, OnOk};
ghost use Rattle.wy_prove_drafts.specs.wy_search_bounds.Seen.{seen_replaced, seen_takings};
ghost use Rattle.wy_prove_drafts.specs.wy_cong.Seen.{terms_of, IsPresent};
ghost use Rattle.wy_prove_drafts.specs.Draft.{IsDraft, seen_draft};
ghost use Rattle.wy_facts.specs.Seen.{Stays};
ghost use Rattle.wy_prove_drafts.specs.wy_check_spec.judge.Node as judge;
ghost use Rattle.wy_lin.specs.Linear.{Linear};
ghost use Rattle.wy_search_spec.specs.Bounds as bounds;
ghost use Rattle.wy_search_spec.specs.Standing as standing;
ghost use Rattle.wy_prove_leaves.specs.stated_sums.Cuts.{Gives};
ghost use Rattle.wy_prove_leaves.specs.stated_sums.Replacing.{AreStated, IsReplaceable, Turns};
ghost use Rattle.wy_prove_leaves.specs.stated_sums.Steps.{Closed};
ghost use Rattle.wy_term.specs.Condition.{Entry};
ghost use Rattle.wy_term.specs.Nodes.{tree_at};

use crate::stated_sums::bounds::summands;
use crate::stated_sums::cutting::state_divided;
use crate::stated_sums::stated::{Stated, Turn};
use wy_prove_drafts::{Draft, Present, Replaced, Taking, close_by_sum};
use wy_term::{NoMemory, Terms};

// The number of a literal with the form that is left of one by bounds: that literal, where there are none, or that of a cut.
fn given_number(
    terms: &mut Terms,
    draft: &mut Draft,
    present: &Present,
    own: u32,
    taken: &[Taking],
) -> Result<Option<u32>, NoMemory>
    requires draft { IsDraft terms.old draft.old }
    requires present { IsPresent terms.old present.now }
    ensures value { (types : List Entry) (base : judge.Node) (f g : Linear ℕ) → terms_of (tree_at terms.old) present.now ≡ standing.present base → IsReplaceable base (seen_draft (tree_at terms.old) draft.old).node.literals own f (seen_takings taken.now) → bounds.replaced_by f (seen_takings taken.now) ≡ bounds.given g → IfOk result (Gives types base g (seen_draft (tree_at terms.old) draft.old) (seen_draft (tree_at terms.new) draft.new)) }
    ensures draft { OnOk result (IsDraft terms.new draft.new) }
    ensures stays { Stays terms.old terms.new }
{
    if taken.is_empty() {
        return Ok(Some(own));
    }
    match summands(terms, draft, present, own, taken)? {
        Some(pairs) => state_divided(terms, draft, pairs),
        None => Ok(None),
    }
}

// Writes the sum of a literal and of bounds, where that refutes, and says whether it did.
fn close_by_bounds(
    terms: &mut Terms,
    draft: &mut Draft,
    present: &Present,
    own: u32,
    taken: &[Taking],
) -> Result<bool, NoMemory>
    requires draft { IsDraft terms.old draft.old }
    requires present { IsPresent terms.old present.now }
    ensures value { (types : List Entry) (base : judge.Node) (f : Linear ℕ) → terms_of (tree_at terms.old) present.now ≡ standing.present base → IsReplaceable base (seen_draft (tree_at terms.old) draft.old).node.literals own f (seen_takings taken.now) → bounds.replaced_by f (seen_takings taken.now) ≡ bounds.refutes → IfOk result (Closed types (seen_draft (tree_at terms.old) draft.old) (seen_draft (tree_at terms.new) draft.new)) }
    ensures draft { OnOk result (IsDraft terms.new draft.new) }
    ensures stays { Stays terms.old terms.new }
{
    match summands(terms, draft, present, own, taken)? {
        Some(pairs) => close_by_sum(terms, draft, pairs),
        None => Ok(false),
    }
}

/// Takes what replacing leaves of the form of a literal, whose number in the draft's node is given beside what takes variables of the
/// form away.
pub fn take(
    terms: &mut Terms,
    draft: &mut Draft,
    present: &Present,
    own: u32,
    taken: &[Taking],
    left: Replaced,
    stated: &mut Stated,
) -> Result<Turn, NoMemory>
    requires draft { IsDraft terms.old draft.old }
    requires present { IsPresent terms.old present.now }
    ensures value { (types : List Entry) (base : judge.Node) (f : Linear ℕ) (rs : List bounds.Replaced) → terms_of (tree_at terms.old) present.now ≡ standing.present base → IsReplaceable base (seen_draft (tree_at terms.old) draft.old).node.literals own f (seen_takings taken.now) → seen_replaced left ≡ bounds.replaced_by f (seen_takings taken.now) → AreStated base (seen_draft (tree_at terms.old) draft.old).node.literals rs stated.old → IfOk result (Turns types base (seen_draft (tree_at terms.old) draft.old) (seen_draft (tree_at terms.new) draft.new) (rs ++ seen_replaced left ∷ []) stated.new) }
    ensures draft { OnOk result (IsDraft terms.new draft.new) }
    ensures stays { Stays terms.old terms.new }
{
    match left {
        Replaced::Gone => Ok(Turn::GoesOn),
        Replaced::Leaves => {
            stated.leaves = true;
            Ok(Turn::GoesOn)
        }
        Replaced::Refutes => {
            if close_by_bounds(terms, draft, present, own, taken)? {
                Ok(Turn::Closes)
            } else {
                Ok(Turn::Lacks)
            }
        }
        Replaced::Given(form) => match given_number(terms, draft, present, own, taken)? {
            Some(k) => {
                stated.numbers.push(k)?;
                stated.forms.push(form)?;
                Ok(Turn::GoesOn)
            }
            None => Ok(Turn::Lacks),
        },
    }
}
