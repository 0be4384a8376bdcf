//! The tightest bounds of a factor.
ghost use Rattle.std.specs.Prelude.{◌≡◌, ◌<◌, ◌^◌, ◌/◌, ◌+◌, ◌-ℤ◌, ◌*ℤ◌, pos, Bool, ℤ, List, Option, None, Some, length, map, IfOk, IfSome, OnOk};
ghost use Rattle.wy_search_bounds.specs.Bounds.{AreBounds};
ghost use Rattle.wy_search_bounds.specs.Known.{AreKnown};
ghost use Rattle.wy_cong.specs.wy_facts.Seen.{Stays};
ghost use Rattle.wy_cong.specs.wy_check_spec.judge.Node.{Literal};
ghost use Rattle.wy_cong.specs.wy_check_nodes.Seen.{seen_branch, IsBranch};
ghost use Rattle.wy_lin.specs.Linear.{◌>>=◌ as bind, Linear};
ghost use Rattle.wy_lin.specs.Seen.{linear_form, seen_form, IsOver};
ghost use Rattle.wy_check.specs.Seen.{AreAffine};
ghost use Rattle.wy_cong.specs.wy_search_spec.Expansion as search;
ghost use Rattle.wy_term.specs.Data.{quotient_down};
ghost use Rattle.wy_term.specs.Nodes.{tree_at};
ghost use Rattle.wy_term.specs.Term.{Term};
ghost use Rattle.wy_cong.specs.wy_check_spec.valid.Products.{affine, Affine as Factors};
ghost use Rattle.wy_cong.specs.wy_check_spec.valid.Sums.{form_at};

use crate::known::{KnownForms, known_form, literal_number, place_of_form};
use wy_check::{Affine, relation};
use wy_cong::Branch;
use wy_lin::Form;
use wy_term::{NoMemory, Terms};

/// The literal, by its number, that is a bound of a factor, and where it stops but for what all bounds of the factor on this
/// side have in common.
#[derive(Clone, Copy, Debug, PartialEq, Eq)]
pub struct Bound {
    pub number: u32,
    pub at: i128,
}

// The quotient of two natural numbers.
fn natural_quotient(n: u128, d: u128) -> i128
    requires divisor { 0 < d }
    requires fits { n < 2 ^ 127 }
    ensures { result ≡ pos (n / d) }
{
    (n / d) as i128
}

// The quotient of a number by one above 0, rounded down.
fn quotient(c: i128, d: u128) -> i128
    requires { 0 < d }
    ensures { result ≡ quotient_down c d }
{
    if c >= 0 {
        natural_quotient(c as u128, d)
    } else {
        -1 - natural_quotient((-1 - c) as u128, d)
    }
}

// The tighter one, the first of equals.
fn tighter(best: Option<Bound>, one: Bound) -> Option<Bound>
    ensures { (ls : List Literal) (f : Linear Term) (below : Bool) (given : Option (Factors × ℤ)) (y : Factors) (at : ℤ) → AreBounds ls f below best given → AreBounds ls f below (Some one) (Some (y, at)) → AreBounds ls f below result (search.tighter given y at) }
{
    match best {
        Some(b) => { if one.at < b.at { Some(one) } else { Some(b) } }
        None => Some(one),
    }
}

// With what a literal, whose form has this constant, is of the factor.
fn with_bound(
    below: bool,
    best: Option<Bound>,
    number: u32,
    constant: i128,
    x: Option<Affine>,
) -> Option<Bound>
    requires { IfSome x (λ a. 0 < a.factor.size) }
    ensures { (ls : List Literal) (f h : Linear Term) (given : Option (Factors × ℤ)) → form_at ls number ≡ Some h → h.constant ≡ constant → AreAffine x (affine f h) → AreBounds ls f below best given → AreBounds ls f below result (search.with_bound below given (affine f h)) }
{
    let Some(a) = x else {
        return best;
    };
    if a.factor.negative == below {
        return best;
    }
    tighter(
        best,
        Bound {
            number,
            at: quotient(constant, a.factor.size),
        },
    )
}

// With what the literal with this place is of a factor with this form.
fn with_literal(
    terms: &mut Terms,
    known: &mut KnownForms,
    branch: &Branch,
    below: bool,
    form: &Form,
    i: usize,
    best: Option<Bound>,
) -> Result<Option<Bound>, NoMemory>
    requires branch { IsBranch terms.old branch.now }
    requires known { AreKnown terms.old known.old }
    requires form { IsOver (length terms.old) (linear_form form.now) }
    requires place { i < length branch.now.literals.keys }
    ensures value { (given : Option (Factors × ℤ)) → AreBounds (seen_branch (tree_at terms.old) branch.now).literals (seen_form (tree_at terms.old) form.now) below best given → IfOk result (λ made. AreBounds (seen_branch (tree_at terms.old) branch.now).literals (seen_form (tree_at terms.old) form.now) below made (search.with_bound below given (bind (form_at (seen_branch (tree_at terms.old) branch.now).literals (i + 1)) (λ h. affine (seen_form (tree_at terms.old) form.now) h)))) }
    ensures known { OnOk result (AreKnown terms.new known.new) }
    ensures stays { Stays terms.old terms.new }
{
    let number = literal_number(i)?;
    match place_of_form(terms, known, branch, i)? {
        Some(place) => {
            let h = known_form(known, place);
            let x = relation(terms, form, h)?;
            Ok(with_bound(below, best, number, h.constant, x))
        }
        None => Ok(best),
    }
}

/// The tightest lower or upper bound of a factor with this form among the literals, the first of equals. It takes the time of
/// `form` on each literal whose form isn't known yet, and that of `relation` on each form. Older numbers name what they named.
pub fn bound_of(
    terms: &mut Terms,
    known: &mut KnownForms,
    branch: &Branch,
    below: bool,
    form: &Form,
) -> Result<Option<Bound>, NoMemory>
    requires branch { IsBranch terms.old branch.now }
    requires known { AreKnown terms.old known.old }
    requires form { IsOver (length terms.old) (linear_form form.now) }
    ensures value { IfOk result (λ b. AreBounds (seen_branch (tree_at terms.old) branch.now).literals (seen_form (tree_at terms.old) form.now) below b (search.best_bound below (seen_form (tree_at terms.old) form.now) None (seen_branch (tree_at terms.old) branch.now).literals)) }
    ensures known { OnOk result (AreKnown terms.new known.new) }
    ensures stays { Stays terms.old terms.new }
{
    let mut best = None;
    for i in 0..branch.literals.len() {
        best = with_literal(terms, known, branch, below, form, i, best)?;
    }
    Ok(best)
}
