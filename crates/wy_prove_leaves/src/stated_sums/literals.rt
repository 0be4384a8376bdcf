//! The forms of a node's literals, stated.
ghost use Rattle.std.specs.Prelude.{◌≡◌, ◌<◌, ◌+◌, ◌∷◌, ◌++◌, [], List, true, Some, length, slice_get, IfOk, OnOk};
ghost use Rattle.wy_prove_drafts.specs.wy_cong.Seen.{IsPresent};
ghost use Rattle.wy_prove_drafts.specs.Draft.{IsDraft, seen_draft};
ghost use Rattle.wy_facts.specs.Seen.{Stays};
ghost use Rattle.wy_prove_drafts.specs.wy_check_spec.judge.Node as judge;
ghost use Rattle.wy_prove_drafts.specs.wy_check_nodes.Seen.{seen_branch, seen_literal, IsBranch};
ghost use Rattle.wy_lin.specs.Seen.{linear_form, seen_form, IsOver};
ghost use Rattle.wy_lin.specs.TermForm.{form_of_literal};
ghost use Rattle.wy_search_spec.specs.Bounds as bounds;
ghost use Rattle.wy_prove_leaves.specs.stated_sums.Classed.{IsClassed};
ghost use Rattle.wy_prove_leaves.specs.stated_sums.Replacing.{left_of, AreStated, IsLinked, Turns};
ghost use Rattle.wy_term.specs.Condition.{Entry};
ghost use Rattle.wy_term.specs.Nodes.{tree_at};
ghost use Rattle.wy_prove_drafts.specs.wy_check_spec.valid.Literals.{formula_of};

use crate::stated_sums::classed::Classed;
use crate::stated_sums::stated::{Stated, Turn};
use crate::stated_sums::taking::take;
use wy_lin::Form;
use wy_prove_drafts::{
    Branch, Draft, form_at, literal_number, nth_literal, numbered, replace, takings,
};
use wy_term::{NoMemory, Terms};

// The number of the literal with a place from 0.
fn number_of_place(i: usize) -> Result<u32, NoMemory>
    ensures { IfOk result (λ k. k ≡ i + 1) }
{
    match u32::try_from(i) {
        Ok(k) => match k.checked_add(1) {
            Some(number) => Ok(number),
            None => Err(NoMemory),
        },
        Err(_) => Err(NoMemory),
    }
}

// Takes a literal of the base, given by its atom and its sign, which has this form.
fn take_form(
    terms: &mut Terms,
    draft: &mut Draft,
    classed: &Classed,
    literal: (u32, bool),
    form: &Form,
    stated: &mut Stated,
) -> Result<Turn, NoMemory>
    requires draft { IsDraft terms.old draft.old }
    requires classed { IsPresent terms.old classed.now.present }
    requires literal { literal.0 < length terms.old }
    requires form { IsOver (length terms.old) (linear_form form.now) }
    ensures value { (types : List Entry) (base : judge.Node) (rs : List bounds.Replaced) → IsClassed terms.old base classed.now → IsLinked base (seen_draft (tree_at terms.old) draft.old).node → judge.has_literal base.literals (seen_literal (tree_at terms.old) literal) ≡ true → form_of_literal (formula_of (seen_literal (tree_at terms.old) literal)) ≡ Some (seen_form (tree_at terms.old) form.now) → AreStated base (seen_draft (tree_at terms.old) draft.old).node.literals rs stated.old → IfOk result (Turns types base (seen_draft (tree_at terms.old) draft.old) (seen_draft (tree_at terms.new) draft.new) (rs ++ left_of base (seen_literal (tree_at terms.old) literal)) stated.new) }
    ensures draft { OnOk result (IsDraft terms.new draft.new) }
    ensures stays { Stays terms.old terms.new }
{
    let Some(own) = literal_number(terms, &draft.branch, literal.0, literal.1)? else {
        return Ok(Turn::Lacks);
    };
    let placed = numbered(terms, &classed.present, form)?;
    let taken = takings(terms.allocator(), &classed.labels, &placed.parts)?;
    let left = replace(terms.allocator(), &classed.labels, placed)?;
    take(terms, draft, &classed.present, own, &taken, left, stated)
}

/// Takes the literal of the base with a place from 0, if it has a form.
pub fn take_literal(
    terms: &mut Terms,
    draft: &mut Draft,
    base: &Branch,
    classed: &Classed,
    i: usize,
    stated: &mut Stated,
) -> Result<Turn, NoMemory>
    requires draft { IsDraft terms.old draft.old }
    requires base { IsBranch terms.old base.now }
    requires classed { IsPresent terms.old classed.now.present }
    requires place { i < length base.now.literals.keys }
    ensures value { (types : List Entry) (l : judge.Literal) (rs : List bounds.Replaced) → IsClassed terms.old (seen_branch (tree_at terms.old) base.now) classed.now → IsLinked (seen_branch (tree_at terms.old) base.now) (seen_draft (tree_at terms.old) draft.old).node → slice_get (seen_branch (tree_at terms.old) base.now).literals i ≡ Some l → AreStated (seen_branch (tree_at terms.old) base.now) (seen_draft (tree_at terms.old) draft.old).node.literals rs stated.old → IfOk result (Turns types (seen_branch (tree_at terms.old) base.now) (seen_draft (tree_at terms.old) draft.old) (seen_draft (tree_at terms.new) draft.new) (rs ++ left_of (seen_branch (tree_at terms.old) base.now) l) stated.new) }
    ensures draft { OnOk result (IsDraft terms.new draft.new) }
    ensures stays { Stays terms.old terms.new }
{
    let literal = nth_literal(terms, base, i);
    match form_at(terms, base, number_of_place(i)?)? {
        Some(form) => take_form(terms, draft, classed, literal, &form, stated),
        None => Ok(Turn::GoesOn),
    }
}
