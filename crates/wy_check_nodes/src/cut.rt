//! What a cut states: a sum of literals' forms, divided and its number rounded down, is at least 0.
ghost use Rattle.std.specs.Prelude.{◌≡◌, ◌<◌, ◌/◌, ◌^◌, pos, ℕ, All, map, length, option_map, IfOk, IfSome};
ghost use Rattle.wy_check_spec.specs.wy_term.Term.{Term, Number, mul};
ghost use Rattle.wy_check_spec.specs.wy_facts.Made.{made_two};
ghost use Rattle.wy_check_spec.specs.wy_term.Data.{quotient_down};
ghost use Rattle.wy_check_spec.specs.wy_term.Folding.{folded};
ghost use Rattle.wy_check_spec.specs.wy_term.Nodes.{plain, grown, tree_at, HasPartsBelow};
ghost use Rattle.wy_check_nodes.specs.Seen.{seen_branch, IsBranch};
ghost use Rattle.wy_check_spec.specs.wy_facts.Seen.{terms_at, AreBelow, Stays};
ghost use Rattle.wy_check_spec.specs.wy_lin.Linear.{◌>>=◌ as bind};
ghost use Rattle.wy_check_spec.specs.wy_lin.Seen.{seen_form, seen_part, linear_form, IsOver};
ghost use Rattle.wy_check_spec.specs.valid.Sums.{divides, divides_all, divided, added_up, total_of, cut_bound, cut_of, summed};

use crate::branch::Branch;
use crate::summed::form_of_sum;
use wy_check_spec::{Form, NoMemory, Node, Terms};

// ---- numbers

// The quotient of two natural numbers.
fn natural_quotient(n: u128, d: u128) -> i128
    requires divisor { 0 < d }
    requires fits { n < 2 ^ 127 }
    ensures { result ≡ pos (n / d) }
{
    (n / d) as i128
}

// The quotient of a number by one above 0, rounded down.
fn quotient(c: i128, d: u128) -> i128
    requires { 0 < d }
    ensures { result ≡ quotient_down c d }
{
    if c >= 0 {
        natural_quotient(c as u128, d)
    } else {
        -1 - natural_quotient((-1 - c) as u128, d)
    }
}

// Whether a number above 0 divides another.
fn divides(d: u128, c: i128) -> bool
    requires { 0 < d }
    ensures { result ≡ divides d c }
{
    if c >= 0 {
        let n = c as u128;
        d.checked_mul(n / d) == Some(n)
    } else {
        let n = (-1 - c) as u128;
        d.checked_mul(n / d + 1) == Some(n + 1)
    }
}

// Whether a number above 0 divides each coefficient.
fn divides_all(d: u128, parts: &[(i128, u32)]) -> bool
    requires { 0 < d }
    ensures { (at : ℕ → Term) → result ≡ divides_all d (map (seen_part at) parts.now) }
{
    for part in parts {
        if !divides(d, part.0) {
            return false;
        }
    }
    true
}

// ---- terms

// The number of what a node is folded to.
fn made(terms: &mut Terms, node: Node) -> Result<u32, NoMemory>
    requires { HasPartsBelow (length terms.old) (plain node) }
    ensures value { IfOk result (λ t. tree_at terms.new t ≡ folded (grown (tree_at terms.old) (plain node))) }
    ensures within { IfOk result (λ t. t < length terms.new) }
    ensures stays { Stays terms.old terms.new }
{
    terms.intern(node)
}

// A number as a term.
fn number(terms: &mut Terms, z: i128) -> Result<u32, NoMemory>
    ensures value { IfOk result (λ t. tree_at terms.new t ≡ Number z) }
    ensures within { IfOk result (λ t. t < length terms.new) }
    ensures stays { Stays terms.old terms.new }
{
    made(terms, Node::Number(z))
}

// The product of a divided coefficient and a variable.
fn product(terms: &mut Terms, d: u128, c: i128, v: u32) -> Result<u32, NoMemory>
    requires divisor { 0 < d }
    requires variable { v < length terms.old }
    ensures value { IfOk result (λ t. tree_at terms.new t ≡ made_two mul (Number (quotient_down c d)) (tree_at terms.old v)) }
    ensures within { IfOk result (λ t. t < length terms.new) }
    ensures stays { Stays terms.old terms.new }
{
    let k = number(terms, quotient(c, d))?;
    made(terms, Node::Mul(k, v))
}

// The products of the divided coefficients and their variables, but for those that have vanished.
fn divided(terms: &mut Terms, d: u128, parts: &[(i128, u32)]) -> Result<Vec<u32>, NoMemory>
    requires divisor { 0 < d }
    requires parts { All (λ p. p.1 < length terms.old) parts.now }
    ensures value { IfOk result (λ ps. terms_at terms.new ps.items ≡ divided d (map (seen_part (tree_at terms.old)) parts.now)) }
    ensures within { IfOk result (λ ps. AreBelow (length terms.new) ps.items) }
    ensures stays { Stays terms.old terms.new }
{
    let mut products = Vec::new(terms.allocator());
    for part in parts {
        if part.0 != 0 {
            products.push(product(terms, d, part.0, part.1)?)?;
        }
    }
    Ok(products)
}

// The terms joined by `add` from the left.
fn added_up(terms: &mut Terms, first: u32, rest: &[u32]) -> Result<u32, NoMemory>
    requires first { first < length terms.old }
    requires rest { AreBelow (length terms.old) rest.now }
    ensures value { IfOk result (λ t. tree_at terms.new t ≡ added_up (tree_at terms.old first) (terms_at terms.old rest.now)) }
    ensures within { IfOk result (λ t. t < length terms.new) }
    ensures stays { Stays terms.old terms.new }
{
    let mut sum = first;
    for t in rest {
        sum = made(terms, Node::Add(sum, *t))?;
    }
    Ok(sum)
}

// The sum of terms and of a number; without terms it is the number.
fn total_of(terms: &mut Terms, products: &[u32], z: i128) -> Result<u32, NoMemory>
    requires { AreBelow (length terms.old) products.now }
    ensures value { IfOk result (λ t. tree_at terms.new t ≡ total_of (terms_at terms.old products.now) z) }
    ensures within { IfOk result (λ t. t < length terms.new) }
    ensures stays { Stays terms.old terms.new }
{
    match products {
        [] => number(terms, z),
        [first, rest @ ..] => {
            let sum = added_up(terms, *first, rest)?;
            let k = number(terms, z)?;
            made(terms, Node::Add(sum, k))
        }
    }
}

// The divided form is at least 0, its number rounded down.
fn cut_bound(terms: &mut Terms, d: u128, form: &Form) -> Result<u32, NoMemory>
    requires divisor { 0 < d }
    requires form { IsOver (length terms.old) (linear_form form.now) }
    ensures value { IfOk result (λ t. tree_at terms.new t ≡ cut_bound d (seen_form (tree_at terms.old) form.now)) }
    ensures within { IfOk result (λ t. t < length terms.new) }
    ensures stays { Stays terms.old terms.new }
{
    let products = divided(terms, d, &form.parts)?;
    let total = total_of(terms, &products, quotient(form.constant, d))?;
    let zero = number(terms, 0)?;
    made(terms, Node::AtMost(zero, total))
}

// What a cut by a number states of a form, whose coefficients it divides.
fn cut_of(terms: &mut Terms, d: u128, form: &Form) -> Result<Option<u32>, NoMemory>
    requires { IsOver (length terms.old) (linear_form form.now) }
    ensures value { IfOk result (λ o. option_map (tree_at terms.new) o ≡ cut_of d (seen_form (tree_at terms.old) form.now)) }
    ensures within { IfOk result (λ o. IfSome o (λ f. f < length terms.new)) }
    ensures stays { Stays terms.old terms.new }
{
    if d <= 1 || !divides_all(d, &form.parts) {
        return Ok(None);
    }
    match cut_bound(terms, d, form) {
        Ok(f) => Ok(Some(f)),
        Err(e) => Err(e),
    }
}

/// What a cut states of the sum of multiples of literals' forms, where there is such a sum and a divisor above 1 divides each
/// of its coefficients: that the divided sum, its number rounded down, is at least 0. It takes the time of `summed` and of as
/// many calls of `intern` as the sum has parts. Older numbers name what they named.
pub fn cut_stated(
    terms: &mut Terms,
    branch: &Branch,
    d: u128,
    pairs: &[(u128, u32)],
) -> Result<Option<u32>, NoMemory>
    requires { IsBranch terms.old branch.now }
    ensures value { IfOk result (λ o. option_map (tree_at terms.new) o ≡ bind (summed (seen_branch (tree_at terms.old) branch.now).literals pairs.now) (λ f. cut_of d f)) }
    ensures within { IfOk result (λ o. IfSome o (λ f. f < length terms.new)) }
    ensures stays { Stays terms.old terms.new }
{
    match form_of_sum(terms, branch, pairs)? {
        Some(form) => cut_of(terms, d, &form),
        None => Ok(None),
    }
}
