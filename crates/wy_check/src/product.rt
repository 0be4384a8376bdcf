//! What the product of two bounds states.
ghost use Rattle.std.specs.Prelude.{◌≡◌, ◌<◌, length, option_map, IfOk, IfSome};
ghost use Rattle.wy_term.specs.Term.{Number, add, mul};
ghost use Rattle.wy_term.specs.Folding.{folded};
ghost use Rattle.wy_term.specs.Nodes.{plain, grown, tree_at, HasPartsBelow};
ghost use Rattle.wy_facts.specs.Made.{made_two, is_at_most};
ghost use Rattle.wy_facts.specs.Seen.{Stays};
ghost use Rattle.wy_lin.specs.TermForm.{form_of};
ghost use Rattle.wy_lin.specs.Seen.{IsOver, linear_form, seen_form};
ghost use Rattle.wy_check_splits.specs.wy_check_nodes.Seen.{seen_branch, IsBranch};
ghost use Rattle.wy_vc_laws.specs.wy_check_spec.valid.Sums.{zero_term};
ghost use Rattle.wy_vc_laws.specs.wy_check_spec.valid.Products.{Affine as Factors, as_product, product_bound, product_stated};
ghost use Rattle.wy_check.specs.Seen.{four, numbers_of, IsAffine};
ghost use Rattle.wy_check.specs.Stated.{seen_factors, seen_forms, AreFormsOver, forms_of, measured};

use crate::affine::{Affine, relation};
use crate::whole::product;
use wy_check_splits::{Branch, form_at};
use wy_lin::{Form, term_form};
use wy_term::{NoMemory, Node, Terms};

// ---- numbers

/// The numbers beside the product of two factors, each factor and nothing.
#[derive(Clone, Copy, Debug, PartialEq, Eq)]
pub struct Numbers {
    pub both: i128,
    pub first: i128,
    pub second: i128,
    pub alone: i128,
}

// Four numbers, where there are four.
fn four(
    both: Option<i128>,
    first: Option<i128>,
    second: Option<i128>,
    alone: Option<i128>,
) -> Option<Numbers>
    ensures { result ≡ four both first second alone }
{
    Some(Numbers {
        both: both?,
        first: first?,
        second: second?,
        alone: alone?,
    })
}

// The four numbers of a product, where they are numbers of 128 bits.
fn numbers_of(x: &Affine, y: &Affine) -> Option<Numbers>
    ensures { (p q : Factors) → IsAffine x.now p → IsAffine y.now q → result ≡ numbers_of p q }
{
    let Some(c) = x.more else {
        return None;
    };
    let Some(d) = y.more else {
        return None;
    };
    let both = product(x.factor, y.factor);
    let first = product(x.factor, d);
    let second = product(c, y.factor);
    let alone = product(c, d);
    four(both, first, second, alone)
}

// ---- forms

/// The forms of two factors and of two literals.
#[derive(Drop)]
pub struct Forms {
    pub first: Form,
    pub second: Form,
    pub lower: Form,
    pub upper: Form,
}

// The form of an Int term, if it has one.
fn form_of(terms: &Terms, t: u32) -> Result<Option<Form>, NoMemory>
    requires { t < length terms.now }
    ensures value { IfOk result (λ o. option_map (seen_form (tree_at terms.now)) o ≡ form_of (tree_at terms.now t)) }
    ensures within { IfOk result (λ o. IfSome o (λ g. IsOver (length terms.now) (linear_form g))) }
{
    match term_form(terms.allocator(), terms, t) {
        Ok(made) => Ok(made),
        Err(_) => Err(NoMemory),
    }
}

// The forms of two factors and of the literals with two numbers, where all have one.
fn forms_of(
    terms: &mut Terms,
    branch: &Branch,
    factors: (u32, u32),
    i: u32,
    j: u32,
) -> Result<Option<Forms>, NoMemory>
    requires branch { IsBranch terms.old branch.now }
    requires first { factors.0 < length terms.old }
    requires second { factors.1 < length terms.old }
    ensures value { IfOk result (λ o. option_map (seen_forms (tree_at terms.new)) o ≡ forms_of (seen_branch (tree_at terms.old) branch.now).literals i j (tree_at terms.old factors.0) (tree_at terms.old factors.1)) }
    ensures within { IfOk result (λ o. IfSome o (AreFormsOver (length terms.new))) }
    ensures stays { Stays terms.old terms.new }
{
    let Some(first) = form_of(terms, factors.0)? else {
        return Ok(None);
    };
    let Some(second) = form_of(terms, factors.1)? else {
        return Ok(None);
    };
    let Some(lower) = form_at(terms, branch, i)? else {
        return Ok(None);
    };
    let Some(upper) = form_at(terms, branch, j)? else {
        return Ok(None);
    };
    Ok(Some(Forms {
        first,
        second,
        lower,
        upper,
    }))
}

// The four numbers of the product of two bounds, where their forms come of those of the factors.
fn measured(terms: &Terms, forms: &Forms) -> Result<Option<Numbers>, NoMemory>
    requires { AreFormsOver (length terms.now) forms.now }
    ensures { IfOk result (λ o. o ≡ measured (seen_forms (tree_at terms.now) forms.now)) }
{
    let Some(x) = relation(terms, &forms.first, &forms.lower)? else {
        return Ok(None);
    };
    let Some(y) = relation(terms, &forms.second, &forms.upper)? else {
        return Ok(None);
    };
    Ok(numbers_of(&x, &y))
}

// ---- terms

// The number of what a node is folded to.
fn made(terms: &mut Terms, node: Node) -> Result<u32, NoMemory>
    requires { HasPartsBelow (length terms.old) (plain node) }
    ensures value { IfOk result (λ t. tree_at terms.new t ≡ folded (grown (tree_at terms.old) (plain node))) }
    ensures within { IfOk result (λ t. t < length terms.new) }
    ensures stays { Stays terms.old terms.new }
{
    terms.intern(node)
}

// A number as a term.
fn number(terms: &mut Terms, z: i128) -> Result<u32, NoMemory>
    ensures value { IfOk result (λ t. tree_at terms.new t ≡ Number z) }
    ensures within { IfOk result (λ t. t < length terms.new) }
    ensures stays { Stays terms.old terms.new }
{
    made(terms, Node::Number(z))
}

// A term, and a number's product with another more.
fn with_multiple(terms: &mut Terms, sum: u32, k: i128, t: u32) -> Result<u32, NoMemory>
    requires sum { sum < length terms.old }
    requires term { t < length terms.old }
    ensures value { IfOk result (λ u. tree_at terms.new u ≡ made_two add (tree_at terms.old sum) (made_two mul (Number k) (tree_at terms.old t))) }
    ensures within { IfOk result (λ u. u < length terms.new) }
    ensures stays { Stays terms.old terms.new }
{
    let factor = number(terms, k)?;
    let product = made(terms, Node::Mul(factor, t))?;
    made(terms, Node::Add(sum, product))
}

// A number's product with a term.
fn multiple(terms: &mut Terms, k: i128, t: u32) -> Result<u32, NoMemory>
    requires { t < length terms.old }
    ensures value { IfOk result (λ u. tree_at terms.new u ≡ made_two mul (Number k) (tree_at terms.old t)) }
    ensures within { IfOk result (λ u. u < length terms.new) }
    ensures stays { Stays terms.old terms.new }
{
    let factor = number(terms, k)?;
    made(terms, Node::Mul(factor, t))
}

// A term with a number more is at least 0.
fn bound(terms: &mut Terms, sum: u32, n: i128) -> Result<u32, NoMemory>
    requires { sum < length terms.old }
    ensures value { IfOk result (λ f. tree_at terms.new f ≡ is_at_most zero_term (made_two add (tree_at terms.old sum) (Number n))) }
    ensures within { IfOk result (λ f. f < length terms.new) }
    ensures stays { Stays terms.old terms.new }
{
    let last = number(terms, n)?;
    let total = made(terms, Node::Add(sum, last))?;
    let zero = number(terms, 0)?;
    made(terms, Node::AtMost(zero, total))
}

// The product of two bounds is at least 0.
fn product_bound(
    terms: &mut Terms,
    p: u32,
    factors: (u32, u32),
    numbers: Numbers,
) -> Result<u32, NoMemory>
    requires product { p < length terms.old }
    requires first { factors.0 < length terms.old }
    requires second { factors.1 < length terms.old }
    ensures value { IfOk result (λ f. tree_at terms.new f ≡ product_bound (tree_at terms.old p) (tree_at terms.old factors.0) (tree_at terms.old factors.1) numbers.both numbers.first numbers.second numbers.alone) }
    ensures within { IfOk result (λ f. f < length terms.new) }
    ensures stays { Stays terms.old terms.new }
{
    let product = multiple(terms, numbers.both, p)?;
    let one = with_multiple(terms, product, numbers.first, factors.0)?;
    let two = with_multiple(terms, one, numbers.second, factors.1)?;
    bound(terms, two, numbers.alone)
}

// The two factors of a product.
fn as_product(terms: &Terms, p: u32) -> Option<(u32, u32)>
    requires { p < length terms.now }
    ensures value { option_map (seen_factors (tree_at terms.now)) result ≡ as_product (tree_at terms.now p) }
    ensures within { IfSome result (λ q. (q.0 < length terms.now) × (q.1 < length terms.now)) }
{
    match terms.node(p) {
        Node::Mul(s, t) => Some((*s, *t)),
        _ => None,
    }
}

/// What the literals with two numbers, from 1, state of a product: that the product of their forms is at least 0, where each
/// comes of the form of a factor and the four numbers of that product fit 128 bits. It takes the time of `term_form` on the
/// factors and of `form` on the literals, and time linear in the parts of these forms. Older numbers name what they named.
pub fn product_stated(
    terms: &mut Terms,
    branch: &Branch,
    i: u32,
    j: u32,
    p: u32,
) -> Result<Option<u32>, NoMemory>
    requires branch { IsBranch terms.old branch.now }
    requires product { p < length terms.old }
    ensures value { IfOk result (λ o. option_map (tree_at terms.new) o ≡ product_stated (seen_branch (tree_at terms.old) branch.now).literals i j (tree_at terms.old p)) }
    ensures within { IfOk result (λ o. IfSome o (λ f. f < length terms.new)) }
    ensures stays { Stays terms.old terms.new }
{
    let Some(factors) = as_product(terms, p) else {
        return Ok(None);
    };
    let Some(forms) = forms_of(terms, branch, factors, i, j)? else {
        return Ok(None);
    };
    let Some(numbers) = measured(terms, &forms)? else {
        return Ok(None);
    };
    match product_bound(terms, p, factors, numbers) {
        Ok(f) => Ok(Some(f)),
        Err(e) => Err(e),
    }
}
