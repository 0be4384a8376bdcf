//! The literals that are bounds between variables.
ghost use Rattle.std.specs.Prelude.{◌≡◌, ◌<◌, length, option_map, IfOk};
ghost use Rattle.wy_prove_drafts.specs.wy_search_bounds.Seen.{seen_takings};
ghost use Rattle.wy_prove_drafts.specs.wy_cong.Seen.{terms_of, IsPresent};
ghost use Rattle.wy_prove_drafts.specs.Draft.{IsDraft, seen_draft};
ghost use Rattle.wy_facts.specs.Made.{is_at_most};
ghost use Rattle.wy_facts.specs.Seen.{Stays};
ghost use Rattle.wy_prove_drafts.specs.wy_check_spec.judge.Node as judge;
ghost use Rattle.wy_lin.specs.Seen.{linear_form};
ghost use Rattle.wy_search_spec.specs.Standing as standing;
ghost use Rattle.wy_prove_leaves.specs.stated_sums.Named.{holding, HasNumber, Names};
ghost use Rattle.wy_prove_leaves.specs.stated_sums.Replacing.{AreBounds, AreSummands, IsBound};
ghost use Rattle.wy_term.specs.Nodes.{tree_at};
ghost use Rattle.wy_term.specs.Term.{two, at_most};

use wy_items::at;
use wy_lin::Form;
use wy_prove_drafts::{Draft, Present, Taking, literal_number};
use wy_term::{NoMemory, Node, Terms};

// The number of the literal `lower <= upper`, if it is there.
fn bound_number(
    terms: &mut Terms,
    draft: &Draft,
    lower: u32,
    upper: u32,
) -> Result<Option<u32>, NoMemory>
    requires draft { IsDraft terms.old draft.now }
    requires lower { lower < length terms.old }
    requires upper { upper < length terms.old }
    ensures value { is_at_most (tree_at terms.old lower) (tree_at terms.old upper) ≡ two at_most (tree_at terms.old lower) (tree_at terms.old upper) → IfOk result (HasNumber (seen_draft (tree_at terms.old) draft.now).node.literals (holding (two at_most (tree_at terms.old lower) (tree_at terms.old upper)))) }
    ensures stays { Stays terms.old terms.new }
{
    let atom = terms.intern(Node::AtMost(lower, upper))?;
    literal_number(terms, &draft.branch, atom, true)
}

// The number of the bound which has this form, its variables by the places of terms.
fn order_number(
    terms: &mut Terms,
    draft: &Draft,
    present: &Present,
    form: &Form,
) -> Result<Option<u32>, NoMemory>
    requires draft { IsDraft terms.old draft.now }
    requires present { IsPresent terms.old present.now }
    ensures value { (base : judge.Node) → terms_of (tree_at terms.old) present.now ≡ standing.present base → IsBound base (seen_draft (tree_at terms.old) draft.now).node.literals (linear_form form.now) → IfOk result (Names base (seen_draft (tree_at terms.old) draft.now).node.literals (linear_form form.now)) }
    ensures stays { Stays terms.old terms.new }
{
    let [v, w] = form.parts.as_slice() else {
        return Ok(None);
    };
    let Some(lower) = at(&present.numbers, v.1 as usize) else {
        return Ok(None);
    };
    let Some(upper) = at(&present.numbers, w.1 as usize) else {
        return Ok(None);
    };
    bound_number(terms, draft, *lower, *upper)
}

/// A literal, taken once, and the bounds that take variables of its form away, each with the number of its literal, where these are
/// there.
pub fn summands(
    terms: &mut Terms,
    draft: &Draft,
    present: &Present,
    own: u32,
    taken: &[Taking],
) -> Result<Option<Vec<(u128, u32)>>, NoMemory>
    requires draft { IsDraft terms.old draft.now }
    requires present { IsPresent terms.old present.now }
    ensures value { (base : judge.Node) → terms_of (tree_at terms.old) present.now ≡ standing.present base → AreBounds base (seen_draft (tree_at terms.old) draft.now).node.literals (seen_takings taken.now) → IfOk result (λ o. AreSummands base (seen_draft (tree_at terms.old) draft.now).node.literals own (seen_takings taken.now) (option_map (λ v. v.items) o)) }
    ensures stays { Stays terms.old terms.new }
{
    let mut pairs = Vec::new(terms.allocator());
    pairs.push((1, own))?;
    for taking in taken {
        match order_number(terms, draft, present, &taking.form)? {
            Some(k) => pairs.push((taking.times, k))?,
            None => return Ok(None),
        }
    }
    Ok(Some(pairs))
}
