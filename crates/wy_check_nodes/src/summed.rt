//! Sums of multiples of literals' forms.
ghost use Rattle.std.specs.Prelude.{◌≡◌, ◌<◌, List, Some, length, map, All, option_map, IfOk, IfSome};
ghost use Rattle.wy_check_spec.specs.wy_term.Nodes.{tree_at};
ghost use Rattle.wy_check_spec.specs.judge.Node.{Literal};
ghost use Rattle.wy_check_spec.specs.wy_facts.Seen.{Stays};
ghost use Rattle.wy_check_nodes.specs.Seen.{seen_branch, IsBranch};
ghost use Rattle.wy_check_spec.specs.wy_lin.Seen.{IsOver, linear_form, seen_form};
ghost use Rattle.wy_check_spec.specs.wy_lin.TermForm.{form_of_denial, form_of_literal};
ghost use Rattle.wy_check_spec.specs.valid.Sums.{form_at, summed};
ghost use Rattle.wy_check_nodes.specs.Gathered.{is_bound, weighed, gathered, placed};

use crate::branch::{Branch, literal_at};
use std::alloc::Global;
use wy_check_spec::{Form, NoMemory, Node, Terms, combine, form};

// ---- one literal

// The form of a formula, where it has one.
fn form_of_literal(terms: &Terms, f: u32) -> Result<Option<Form>, NoMemory>
    requires { f < length terms.now }
    ensures value { IfOk result (λ o. option_map (seen_form (tree_at terms.now)) o ≡ form_of_literal (tree_at terms.now f)) }
    ensures within { IfOk result (λ o. IfSome o (λ g. IsOver (length terms.now) (linear_form g))) }
{
    match form(terms.allocator(), terms, f) {
        Ok(made) => Ok(made),
        Err(_) => Err(NoMemory),
    }
}

// Whether a formula is a bound.
fn is_bound(terms: &Terms, f: u32) -> bool
    requires { f < length terms.now }
    ensures { result ≡ is_bound (tree_at terms.now f) }
{
    match terms.node(f) {
        Node::AtMost(_, _) => true,
        _ => false,
    }
}

// The form of the denial of an atom, which is made as a term.
fn form_of_denial(terms: &mut Terms, atom: u32) -> Result<Option<Form>, NoMemory>
    requires { atom < length terms.old }
    ensures value { IfOk result (λ o. option_map (seen_form (tree_at terms.new)) o ≡ form_of_denial (tree_at terms.old atom)) }
    ensures within { IfOk result (λ o. IfSome o (λ g. IsOver (length terms.new) (linear_form g))) }
    ensures stays { Stays terms.old terms.new }
{
    if !is_bound(terms, atom) {
        return Ok(None);
    }
    let literal = terms.intern(Node::Not(atom))?;
    form_of_literal(terms, literal)
}

/// The form of the literal with a number, from 1, where there is one and it has a form. It takes the time of `form`. A denied
/// bound is made as a term; older numbers name what they named.
pub fn form_at(terms: &mut Terms, branch: &Branch, i: u32) -> Result<Option<Form>, NoMemory>
    requires { IsBranch terms.old branch.now }
    ensures value { IfOk result (λ o. option_map (seen_form (tree_at terms.new)) o ≡ form_at (seen_branch (tree_at terms.old) branch.now).literals i) }
    ensures within { IfOk result (λ o. IfSome o (λ g. IsOver (length terms.new) (linear_form g))) }
    ensures stays { Stays terms.old terms.new }
{
    let Some((atom, holds)) = literal_at(terms, branch, i) else {
        return Ok(None);
    };
    if holds {
        form_of_literal(terms, atom)
    } else {
        form_of_denial(terms, atom)
    }
}

// The same, where the multiplier is at least 1.
fn weighed(terms: &mut Terms, branch: &Branch, m: u128, i: u32) -> Result<Option<Form>, NoMemory>
    requires { IsBranch terms.old branch.now }
    ensures value { IfOk result (λ o. option_map (seen_form (tree_at terms.new)) o ≡ weighed (seen_branch (tree_at terms.old) branch.now).literals m i) }
    ensures within { IfOk result (λ o. IfSome o (λ g. IsOver (length terms.new) (linear_form g))) }
    ensures stays { Stays terms.old terms.new }
{
    if m == 0 {
        return Ok(None);
    }
    form_at(terms, branch, i)
}

// ---- all of them

// The forms of the literals that are named, where each has one and each multiplier is at least 1.
fn gathered(
    terms: &mut Terms,
    branch: &Branch,
    pairs: &[(u128, u32)],
) -> Result<Option<Vec<Form>>, NoMemory>
    requires { IsBranch terms.old branch.now }
    ensures value { IfOk result (λ o. option_map (λ fs. map (seen_form (tree_at terms.new)) fs.items) o ≡ gathered (seen_branch (tree_at terms.old) branch.now).literals pairs.now) }
    ensures within { IfOk result (λ o. IfSome o (λ fs. All (λ g. IsOver (length terms.new) (linear_form g)) fs.items)) }
    ensures stays { Stays terms.old terms.new }
{
    let mut forms = Vec::new(terms.allocator());
    for (m, i) in pairs {
        match weighed(terms, branch, *m, *i)? {
            Some(made) => forms.push(made)?,
            None => return Ok(None),
        }
    }
    Ok(Some(forms))
}

// The multipliers, each beside the place of its form, from 0.
fn placed(alloc: Global, pairs: &[(u128, u32)]) -> Result<Vec<(u128, u32)>, NoMemory>
    ensures { IfOk result (λ ms. ms.items ≡ placed 0 pairs.now) }
{
    let mut multipliers = Vec::new(alloc);
    for (k, pair) in pairs.iter().enumerate() {
        match u32::try_from(k) {
            Ok(place) => multipliers.push((pair.0, place))?,
            Err(_) => return Err(NoMemory),
        }
    }
    Ok(multipliers)
}

// The sum of multiples of these forms.
fn sum_of(terms: &Terms, forms: &[Form], pairs: &[(u128, u32)]) -> Result<Option<Form>, NoMemory>
    requires forms { All (λ g. IsOver (length terms.now) (linear_form g)) forms.now }
    requires many { length forms.now ≡ length pairs.now }
    ensures value { (ls : List Literal) → Some (map (seen_form (tree_at terms.now)) forms.now) ≡ gathered ls pairs.now → IfOk result (λ o. option_map (seen_form (tree_at terms.now)) o ≡ summed ls pairs.now) }
    ensures within { IfOk result (λ o. IfSome o (λ g. IsOver (length terms.now) (linear_form g))) }
{
    terms.one_number_for_each_term();
    let multipliers = placed(terms.allocator(), pairs)?;
    match combine(terms.allocator(), forms, &multipliers) {
        Ok(made) => Ok(made),
        Err(_) => Err(NoMemory),
    }
}

/// The sum of multiples of literals' forms, each multiplier beside the number, from 1, of its literal. There is none exactly
/// where a multiplier is 0, a number names no literal or one without a form, or a product with a multiplier or a partial
/// sum, from the left, leaves 128 bits. It takes the time of `form` on each literal that is named, and time linear in the
/// parts of these forms. Denied bounds are made as terms; older numbers name what they named. Want of memory is also the
/// answer where 2^32 literals are named.
pub fn form_of_sum(
    terms: &mut Terms,
    branch: &Branch,
    pairs: &[(u128, u32)],
) -> Result<Option<Form>, NoMemory>
    requires { IsBranch terms.old branch.now }
    ensures value { IfOk result (λ o. option_map (seen_form (tree_at terms.new)) o ≡ summed (seen_branch (tree_at terms.old) branch.now).literals pairs.now) }
    ensures within { IfOk result (λ o. IfSome o (λ g. IsOver (length terms.new) (linear_form g))) }
    ensures stays { Stays terms.old terms.new }
{
    match gathered(terms, branch, pairs)? {
        Some(forms) => sum_of(terms, &forms, pairs),
        None => Ok(None),
    }
}
