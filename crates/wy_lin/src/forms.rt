//! The forms of terms and of literals.
ghost use Rattle.std.specs.Prelude.{◌≡◌, ◌<◌, length, option_map, IfOk, IfSome};
ghost use Rattle.wy_term.specs.Nodes.{tree_at};
ghost use Rattle.wy_lin.specs.TermForm.{form_of, form_of_denial, form_of_literal, difference, excess};
ghost use Rattle.wy_lin.specs.Worth.{IsWorth, SaysAsMuch};
ghost use Rattle.wy_lin.specs.Seen.{Gives, IsOver, linear_form, linear_sum, seen_form, seen_sum};

use crate::arithmetic::Factor;
use crate::linear::Form;
use crate::stop::Stop;
use crate::sum::{Sum, answered, form_from, number_sum};
use crate::work::{sum_of_term, with_form};
use std::alloc::Global;
use wy_term::{NoMemory, Node, Terms};

// The second form less the first, the variables of the first one first.
fn difference(alloc: Global, terms: &Terms, f: &Form, g: &Form) -> Result<Sum, Stop>
    requires first { IsOver (length terms.now) (linear_form f.now) }
    requires second { IsOver (length terms.now) (linear_form g.now) }
    ensures gives { Gives (seen_sum (tree_at terms.now)) result (difference (seen_form (tree_at terms.now) f.now) (seen_form (tree_at terms.now) g.now)) }
    ensures below { IfOk result (λ s. IsOver (length terms.now) (linear_sum s)) }
{
    let zeros = with_form(terms, number_sum(alloc, 0), Factor::Scale(0), f)?;
    let second = with_form(terms, zeros, Factor::Times(1), g)?;
    with_form(terms, second, Factor::Minus, f)
}

// The first form less the second and less 1.
fn excess(alloc: Global, terms: &Terms, f: Sum, g: &Form) -> Result<Sum, Stop>
    requires first { IsOver (length terms.now) (linear_sum f) }
    requires second { IsOver (length terms.now) (linear_form g.now) }
    ensures gives { Gives (seen_sum (tree_at terms.now)) result (excess (seen_sum (tree_at terms.now) f) (seen_form (tree_at terms.now) g.now)) }
    ensures below { IfOk result (λ s. IsOver (length terms.now) (linear_sum s)) }
{
    let one = form_from(alloc, &number_sum(alloc, 1))?;
    let h = with_form(terms, f, Factor::Minus, g)?;
    with_form(terms, h, Factor::Minus, &one)
}

// The form of the denial of an atom.
fn sum_of_denial(alloc: Global, terms: &Terms, atom: u32) -> Result<Sum, Stop>
    requires { atom < length terms.now }
    ensures gives { Gives (seen_sum (tree_at terms.now)) result (form_of_denial (tree_at terms.now atom)) }
    ensures below { IfOk result (λ s. IsOver (length terms.now) (linear_sum s)) }
{
    match terms.node(atom) {
        Node::AtMost(s, t) => {
            let f = sum_of_term(alloc, terms, *s)?;
            let g = sum_of_term(alloc, terms, *t)?;
            let second = form_from(alloc, &g)?;
            excess(alloc, terms, f, &second)
        }
        _ => Err(Stop::Undefined),
    }
}

fn sum_of_literal(alloc: Global, terms: &Terms, literal: u32) -> Result<Sum, Stop>
    requires { literal < length terms.now }
    ensures gives { Gives (seen_sum (tree_at terms.now)) result (form_of_literal (tree_at terms.now literal)) }
    ensures below { IfOk result (λ s. IsOver (length terms.now) (linear_sum s)) }
{
    match terms.node(literal) {
        Node::AtMost(s, t) => {
            let f = sum_of_term(alloc, terms, *s)?;
            let g = sum_of_term(alloc, terms, *t)?;
            let first = form_from(alloc, &f)?;
            let second = form_from(alloc, &g)?;
            difference(alloc, terms, &first, &second)
        }
        Node::Not(atom) => sum_of_denial(alloc, terms, *atom),
        _ => Err(Stop::Undefined),
    }
}

/// The linear form of an Int term: numbers, sums, differences, opposites and products with a number are taken apart, and
/// each other term is a variable. There is none exactly where a number on the way to it, from the leaves up, leaves 128
/// bits. It works on a list of tasks, so a term may be of any depth, and takes time linear in the size of the term as a
/// tree and in the parts of the forms of right sides and factors in it; a sum that leans to the left takes linear time.
pub fn term_form(alloc: Global, terms: &Terms, t: u32) -> Result<Option<Form>, NoMemory>
    requires { t < length terms.now }
    ensures value { IfOk result (λ o. option_map (seen_form (tree_at terms.now)) o ≡ form_of (tree_at terms.now t)) }
    ensures worth { IfOk result (λ o. IfSome o (λ f. IsWorth (seen_form (tree_at terms.now) f) (tree_at terms.now t))) }
    ensures within { IfOk result (λ o. IfSome o (λ f. IsOver (length terms.now) (linear_form f))) }
{
    answered(alloc, sum_of_term(alloc, terms, t))
}

/// The form of a literal, which is at least 0 exactly where the literal holds: `t - s` for `s <= t`, and `s - t - 1` for
/// `not s <= t`; the variables of `s` come first. No other formula has a form, and one of these has none exactly where a
/// number on the way to it, from the leaves up, leaves 128 bits. It takes the time of `term_form` on `s` and on `t`.
pub fn form(alloc: Global, terms: &Terms, literal: u32) -> Result<Option<Form>, NoMemory>
    requires { literal < length terms.now }
    ensures value { IfOk result (λ o. option_map (seen_form (tree_at terms.now)) o ≡ form_of_literal (tree_at terms.now literal)) }
    ensures worth { IfOk result (λ o. IfSome o (λ f. SaysAsMuch (seen_form (tree_at terms.now) f) (tree_at terms.now literal))) }
    ensures within { IfOk result (λ o. IfSome o (λ f. IsOver (length terms.now) (linear_form f))) }
{
    answered(alloc, sum_of_literal(alloc, terms, literal))
}
