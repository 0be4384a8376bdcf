//! Cuts, and the numbers of the literals that they state.
ghost use Rattle.std.specs.Prelude.{List, ◌==◌, IfOk, OnOk};
ghost use Rattle.wy_prove_drafts.specs.Draft.{IsDraft, seen_draft};
ghost use Rattle.wy_facts.specs.Seen.{Stays};
ghost use Rattle.wy_prove_leaves.specs.stated_sums.Cuts.{StatesBy, StatesCut, StatesDivided};
ghost use Rattle.wy_term.specs.Condition.{Entry};
ghost use Rattle.wy_term.specs.Nodes.{tree_at};

use crate::stated_sums::pairs::twice;
use wy_lin_eliminate::common;
use wy_prove_drafts::{Draft, cut_stated, form_of_sum, literal_number, write_cut};
use wy_term::{NoMemory, Terms};

/// Writes a cut, unless the literal that it states is there. The number of that literal, where there is one.
pub fn state_cut(
    terms: &mut Terms,
    draft: &mut Draft,
    d: u128,
    pairs: Vec<(u128, u32)>,
) -> Result<Option<u32>, NoMemory>
    requires draft { IsDraft terms.old draft.old }
    ensures value { (types : List Entry) → IfOk result (StatesCut types d pairs.items (seen_draft (tree_at terms.old) draft.old) (seen_draft (tree_at terms.new) draft.new)) }
    ensures draft { OnOk result (IsDraft terms.new draft.new) }
    ensures stays { Stays terms.old terms.new }
{
    match cut_stated(terms, &draft.branch, d, &pairs)? {
        Some(atom) => {
            write_cut(terms, draft, d, pairs)?;
            literal_number(terms, &draft.branch, atom, true)
        }
        None => Ok(None),
    }
}

// The cut by a divisor; by 2 of the doubled multipliers, where that is 1.
fn state_by(
    terms: &mut Terms,
    draft: &mut Draft,
    d: u128,
    pairs: Vec<(u128, u32)>,
) -> Result<Option<u32>, NoMemory>
    requires draft { IsDraft terms.old draft.old }
    ensures value { (types : List Entry) → IfOk result (StatesBy (d == 1) types d pairs.items (seen_draft (tree_at terms.old) draft.old) (seen_draft (tree_at terms.new) draft.new)) }
    ensures draft { OnOk result (IsDraft terms.new draft.new) }
    ensures stays { Stays terms.old terms.new }
{
    if d != 1 {
        return state_cut(terms, draft, d, pairs);
    }
    match twice(terms.allocator(), &pairs)? {
        Some(made) => state_cut(terms, draft, 2, made),
        None => Ok(None),
    }
}

/// Writes the cut of a sum by the common divisor of its coefficients; where that is 1, of the doubled sum by 2. The number of the
/// literal that it states, where there is one.
pub fn state_divided(
    terms: &mut Terms,
    draft: &mut Draft,
    pairs: Vec<(u128, u32)>,
) -> Result<Option<u32>, NoMemory>
    requires draft { IsDraft terms.old draft.old }
    ensures value { (types : List Entry) → IfOk result (StatesDivided types pairs.items (seen_draft (tree_at terms.old) draft.old) (seen_draft (tree_at terms.new) draft.new)) }
    ensures draft { OnOk result (IsDraft terms.new draft.new) }
    ensures stays { Stays terms.old terms.new }
{
    match form_of_sum(terms, &draft.branch, &pairs)? {
        Some(sum) => state_by(terms, draft, common(&sum.parts), pairs),
        None => Ok(None),
    }
}
