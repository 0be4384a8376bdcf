//! What products of bounds state.
ghost use Rattle.std.specs.Prelude.{◌≡◌, ◌<◌, ℕ, Some, length, map, option_map, IfOk, IfSome, OnOk};
ghost use Rattle.wy_search_bounds.specs.Adding.{Leads};
ghost use Rattle.wy_search_bounds.specs.Bounds.{AreFactor, AreTightest, IsVarying, Pushes};
ghost use Rattle.wy_search_bounds.specs.Known.{AreKnown};
ghost use Rattle.wy_cong.specs.wy_facts.Seen.{terms_at, AreBelow, Stays};
ghost use Rattle.wy_cong.specs.wy_check_spec.judge.Node.{Node as TreeNode, with_formulas};
ghost use Rattle.wy_cong.specs.wy_check_nodes.Seen.{seen_branch, seen_formula, IsBranch};
ghost use Rattle.wy_lin.specs.Linear.{Linear};
ghost use Rattle.wy_lin.specs.Seen.{linear_form, seen_form, seen_part, IsOver};
ghost use Rattle.wy_lin.specs.TermForm.{form_of};
ghost use Rattle.wy_cong.specs.wy_search_spec.Expansion as search;
ghost use Rattle.wy_term.specs.Nodes.{tree_at};
ghost use Rattle.wy_term.specs.Term.{Term};
ghost use Rattle.wy_cong.specs.wy_check_spec.valid.Products.{as_product, product_stated};
ghost use Rattle.wy_cong.specs.wy_check_spec.valid.Sums.{all_zero};

use crate::known::KnownForms;
use crate::tightest::{Bound, bound_of};
use wy_check::product_stated;
use wy_cong::{Branch, pending_at, standing};
use wy_lin::{Form, term_form};
use wy_term::{NoMemory, Node, Terms};

/// The tightest bounds of a factor, from below and from above.
#[derive(Clone, Copy, Debug, PartialEq, Eq)]
pub struct Bounds {
    pub lower: Option<Bound>,
    pub upper: Option<Bound>,
}

// ---- the bounds of a factor

// The two factors of a product.
fn as_product(terms: &Terms, p: u32) -> Option<(u32, u32)>
    requires { p < length terms.now }
    ensures value { option_map (λ q. (tree_at terms.now q.0, tree_at terms.now q.1)) result ≡ as_product (tree_at terms.now p) }
    ensures within { IfSome result (λ q. (q.0 < length terms.now) × (q.1 < length terms.now)) }
{
    match terms.node(p) {
        Node::Mul(s, t) => Some((*s, *t)),
        _ => None,
    }
}

// Whether the form has no variable.
fn all_zero(parts: &[(i128, u32)]) -> bool
    ensures { (at : ℕ → Term) → result ≡ all_zero (map (seen_part at) parts.now) }
{
    for part in parts {
        if part.0 != 0 {
            return false;
        }
    }
    true
}

// The form of a factor, where it has one with a variable.
fn varying_form(terms: &Terms, t: u32) -> Result<Option<Form>, NoMemory>
    requires { t < length terms.now }
    ensures value { IfOk result (λ o. IsVarying (option_map (seen_form (tree_at terms.now)) o) (form_of (tree_at terms.now t))) }
    ensures within { IfOk result (λ o. IfSome o (λ f. IsOver (length terms.now) (linear_form f))) }
{
    match term_form(terms.allocator(), terms, t) {
        Ok(Some(form)) => {
            if all_zero(&form.parts) {
                Ok(None)
            } else {
                Ok(Some(form))
            }
        }
        Ok(None) => Ok(None),
        Err(_) => Err(NoMemory),
    }
}

// The tightest bounds of a factor with this form.
fn bounds_by(
    terms: &mut Terms,
    known: &mut KnownForms,
    branch: &Branch,
    form: &Form,
) -> Result<Bounds, NoMemory>
    requires branch { IsBranch terms.old branch.now }
    requires known { AreKnown terms.old known.old }
    requires form { IsOver (length terms.old) (linear_form form.now) }
    ensures value { IfOk result (λ b. AreTightest (seen_branch (tree_at terms.old) branch.now).literals (seen_form (tree_at terms.old) form.now) b) }
    ensures known { OnOk result (AreKnown terms.new known.new) }
    ensures stays { Stays terms.old terms.new }
{
    let lower = bound_of(terms, known, branch, true, form)?;
    let upper = bound_of(terms, known, branch, false, form)?;
    Ok(Bounds { lower, upper })
}

/// The tightest bounds of a factor, where it has a form with a variable. It takes the time of `form` on the factor and on each
/// literal whose form isn't known yet, and twice that of `relation` on each literal's form. Older numbers name what they named.
pub fn bounds_of(
    terms: &mut Terms,
    known: &mut KnownForms,
    branch: &Branch,
    t: u32,
) -> Result<Option<Bounds>, NoMemory>
    requires branch { IsBranch terms.old branch.now }
    requires known { AreKnown terms.old known.old }
    requires term { t < length terms.old }
    ensures value { IfOk result (λ o. AreFactor (seen_branch (tree_at terms.old) branch.now).literals (tree_at terms.old t) o) }
    ensures known { OnOk result (AreKnown terms.new known.new) }
    ensures stays { Stays terms.old terms.new }
{
    match varying_form(terms, t)? {
        Some(form) => Ok(Some(bounds_by(terms, known, branch, &form)?)),
        None => Ok(None),
    }
}

// ---- products

// A formula behind the others, if there is one.
fn push_some(stated: &mut Vec<u32>, made: Option<u32>) -> Result<(), NoMemory>
    ensures value { (at : ℕ → Term) (start : TreeNode) → OnOk result (with_formulas start (map at stated.new.items) ≡ search.with_some (with_formulas start (map at stated.old.items)) (option_map at made)) }
    ensures below { (n : ℕ) → AreBelow n stated.old.items → IfSome made (λ f. f < n) → OnOk result (AreBelow n stated.new.items) }
{
    match made {
        Some(f) => {
            stated.push(f)?;
            Ok(())
        }
        None => Ok(()),
    }
}

// What the literals with these numbers state of a product, behind the others.
fn push_stated(
    terms: &mut Terms,
    branch: &Branch,
    stated: &mut Vec<u32>,
    p: u32,
    i: u32,
    j: u32,
) -> Result<(), NoMemory>
    requires branch { IsBranch terms.old branch.now }
    requires product { p < length terms.old }
    requires stated { AreBelow (length terms.old) stated.old.items }
    ensures value { OnOk result (Leads terms.old stated.old.items terms.new stated.new.items (λ done. search.with_some done (product_stated (seen_branch (tree_at terms.old) branch.now).literals i j (tree_at terms.old p)))) }
    ensures stays { Stays terms.old terms.new }
{
    let made = product_stated(terms, branch, i, j, p)?;
    push_some(stated, made)
}

// What the product of two bounds states, behind the others.
fn push_product(
    terms: &mut Terms,
    branch: &Branch,
    stated: &mut Vec<u32>,
    p: u32,
    x: Option<Bound>,
    y: Option<Bound>,
) -> Result<(), NoMemory>
    requires branch { IsBranch terms.old branch.now }
    requires product { p < length terms.old }
    requires stated { AreBelow (length terms.old) stated.old.items }
    ensures value { Pushes (seen_branch (tree_at terms.old) branch.now).literals (tree_at terms.old p) x y (λ more. OnOk result (Leads terms.old stated.old.items terms.new stated.new.items more)) }
    ensures below { OnOk result (AreBelow (length terms.new) stated.new.items) }
    ensures stays { Stays terms.old terms.new }
{
    let Some(a) = x else {
        return Ok(());
    };
    let Some(b) = y else {
        return Ok(());
    };
    push_stated(terms, branch, stated, p, a.number, b.number)
}

// What the products of the bounds of its factors state of a product.
fn push_four(
    terms: &mut Terms,
    branch: &Branch,
    stated: &mut Vec<u32>,
    p: u32,
    x: Bounds,
    y: Bounds,
) -> Result<(), NoMemory>
    requires branch { IsBranch terms.old branch.now }
    requires product { p < length terms.old }
    requires stated { AreBelow (length terms.old) stated.old.items }
    ensures value { (s t : Term) (f g : Linear Term) → as_product (tree_at terms.old p) ≡ Some (s, t) → form_of s ≡ Some f → form_of t ≡ Some g → AreTightest (seen_branch (tree_at terms.old) branch.now).literals f x → AreTightest (seen_branch (tree_at terms.old) branch.now).literals g y → OnOk result (Leads terms.old stated.old.items terms.new stated.new.items (λ done. search.with_four (seen_branch (tree_at terms.old) branch.now) (tree_at terms.old p) s t f g done)) }
    ensures stays { Stays terms.old terms.new }
{
    push_product(terms, branch, stated, p, x.lower, y.lower)?;
    push_product(terms, branch, stated, p, x.lower, y.upper)?;
    push_product(terms, branch, stated, p, x.upper, y.lower)?;
    push_product(terms, branch, stated, p, x.upper, y.upper)
}

// The same, where both factors have a form with a variable.
fn push_products_of(
    terms: &mut Terms,
    known: &mut KnownForms,
    branch: &Branch,
    stated: &mut Vec<u32>,
    p: u32,
    factors: (u32, u32),
) -> Result<(), NoMemory>
    requires branch { IsBranch terms.old branch.now }
    requires known { AreKnown terms.old known.old }
    requires product { p < length terms.old }
    requires first { factors.0 < length terms.old }
    requires second { factors.1 < length terms.old }
    requires factors { as_product (tree_at terms.old p) ≡ Some (tree_at terms.old factors.0, tree_at terms.old factors.1) }
    requires stated { AreBelow (length terms.old) stated.old.items }
    ensures value { OnOk result (Leads terms.old stated.old.items terms.new stated.new.items (λ done. search.with_forms (seen_branch (tree_at terms.old) branch.now) (tree_at terms.old p) (tree_at terms.old factors.0) (tree_at terms.old factors.1) (form_of (tree_at terms.old factors.0)) (form_of (tree_at terms.old factors.1)) done)) }
    ensures known { OnOk result (AreKnown terms.new known.new) }
    ensures stays { Stays terms.old terms.new }
{
    let Some(x) = bounds_of(terms, known, branch, factors.0)? else {
        return Ok(());
    };
    let Some(y) = bounds_of(terms, known, branch, factors.1)? else {
        return Ok(());
    };
    push_four(terms, branch, stated, p, x, y)
}

// The same of a term, if it is a product.
fn push_term(
    terms: &mut Terms,
    known: &mut KnownForms,
    branch: &Branch,
    stated: &mut Vec<u32>,
    p: u32,
    holds: bool,
) -> Result<(), NoMemory>
    requires branch { IsBranch terms.old branch.now }
    requires known { AreKnown terms.old known.old }
    requires term { p < length terms.old }
    requires stated { AreBelow (length terms.old) stated.old.items }
    ensures value { OnOk result (Leads terms.old stated.old.items terms.new stated.new.items (λ done. search.with_products_of (seen_branch (tree_at terms.old) branch.now) (seen_formula (tree_at terms.old) (p, holds)) (as_product (seen_formula (tree_at terms.old) (p, holds))) done)) }
    ensures known { OnOk result (AreKnown terms.new known.new) }
    ensures stays { Stays terms.old terms.new }
{
    if !holds {
        return Ok(());
    }
    match as_product(terms, p) {
        Some(factors) => push_products_of(terms, known, branch, stated, p, factors),
        None => Ok(()),
    }
}

/// What the products of the tightest bounds of the factors state of each product that stands in the node. For each factor it
/// takes the time of `bounds_of`, and for each two bounds that of `product_stated`. Older numbers name what they named.
pub fn products_of(
    terms: &mut Terms,
    known: &mut KnownForms,
    branch: &Branch,
) -> Result<Vec<u32>, NoMemory>
    requires branch { IsBranch terms.old branch.now }
    requires known { AreKnown terms.old known.old }
    ensures value { IfOk result (λ fs. with_formulas (seen_branch (tree_at terms.old) branch.now) (terms_at terms.new fs.items) ≡ search.with_products (seen_branch (tree_at terms.old) branch.now)) }
    ensures below { IfOk result (λ fs. AreBelow (length terms.new) fs.items) }
    ensures known { OnOk result (AreKnown terms.new known.new) }
    ensures stays { Stays terms.old terms.new }
{
    let found = standing(terms, branch)?;
    let mut stated = Vec::new(terms.allocator());
    for i in 0..found.pending.len() {
        let (p, holds) = pending_at(&found, i);
        push_term(terms, known, branch, &mut stated, p, holds)?;
    }
    Ok(stated)
}
