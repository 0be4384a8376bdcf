//! Whether the coefficients of one form are a number's multiple of those of another.
ghost use Rattle.std.specs.Prelude.{◌≡◌, ◌<◌, ℕ, nat_eq, map, length, option_map, slice_index_or, IfOk};
ghost use Rattle.indexmap.specs.IndexMap.{index_map_len};
ghost use Rattle.wy_term.specs.Term.{Term};
ghost use Rattle.wy_term.specs.Nodes.{tree_at};
ghost use Rattle.wy_lin.specs.Linear.{more, coefficient, plus_part, plus_parts};
ghost use Rattle.wy_lin.specs.Seen.{IsOver, linear_form, seen_form, seen_part, turned};
ghost use Rattle.wy_vc_laws.specs.wy_check_spec.valid.Sums.{all_zero};
ghost use Rattle.wy_vc_laws.specs.wy_check_spec.valid.Products.{is_multiple};
ghost use Rattle.wy_check.specs.Seen.{number_of, factor_of};

use crate::whole::{Whole, as_whole, product};
use indexmap::IndexMap;
use wy_lin::Form;
use wy_term::{NoMemory, Terms};

/// How often a form is added to another.
#[derive(Clone, Copy, Debug, PartialEq, Eq)]
pub enum Measure {
    /// This many times, or taken away so often where the number is negative.
    Times(Whole),
    /// Once, taken away.
    Minus,
}

// A number and a multiple of another, where the product and the sum fit 128 bits.
fn more(x: i128, m: Measure, c: i128) -> Option<i128>
    ensures { result ≡ more x (factor_of m) c }
{
    match m {
        Measure::Times(a) => match product(a, as_whole(c)) {
            Some(d) => x.checked_add(d),
            None => None,
        },
        Measure::Minus => x.checked_sub(c),
    }
}

// The coefficient of a variable, 0 where it has none.
fn coefficient(coefficients: &IndexMap<u32, i128>, v: u32) -> i128
    ensures { result ≡ coefficient nat_eq (map turned coefficients.now.entries) v }
{
    match coefficients.get(&v) {
        Some(c) => *c,
        None => 0,
    }
}

// The coefficients, with a multiple of one part more.
fn plus_part(
    coefficients: IndexMap<u32, i128>,
    m: Measure,
    c: i128,
    v: u32,
) -> Result<Option<IndexMap<u32, i128>>, NoMemory>
    ensures { IfOk result (λ o. option_map (λ cs. map turned cs.entries) o ≡ plus_part nat_eq (map turned coefficients.entries) (factor_of m) c v) }
{
    let mut coefficients = coefficients;
    match more(coefficient(&coefficients, v), m, c) {
        Some(d) => {
            coefficients.insert(v, d)?;
            Ok(Some(coefficients))
        }
        None => Ok(None),
    }
}

// The coefficients, with a multiple of each of these parts more.
fn plus_parts(
    coefficients: IndexMap<u32, i128>,
    m: Measure,
    parts: &[(i128, u32)],
) -> Result<Option<IndexMap<u32, i128>>, NoMemory>
    ensures { IfOk result (λ o. option_map (λ cs. map turned cs.entries) o ≡ plus_parts nat_eq (map turned coefficients.entries) (factor_of m) parts.now) }
{
    let mut coefficients = coefficients;
    for part in parts {
        match plus_part(coefficients, m, part.0, part.1)? {
            Some(made) => coefficients = made,
            None => return Ok(None),
        }
    }
    Ok(Some(coefficients))
}

// The part at a place, from 0.
#[tactic(auto, using(wy_lin::proofs::SumLemmas::entry_part))]
fn part_at(coefficients: &IndexMap<u32, i128>, i: usize) -> (i128, u32)
    requires { i < index_map_len coefficients.now }
    ensures value { result ≡ slice_index_or (map turned coefficients.now.entries) i result }
{
    match coefficients.get_index(i) {
        Some((v, c)) => (*c, *v),
        None => (0, 0),
    }
}

// Whether no variable is left.
fn all_zero(coefficients: &IndexMap<u32, i128>) -> bool
    ensures { (at : ℕ → Term) → result ≡ all_zero (map (seen_part at) (map turned coefficients.now.entries)) }
{
    for i in 0..coefficients.len() {
        if part_at(coefficients, i).0 != 0 {
            return false;
        }
    }
    true
}

/// Whether the coefficients of g are a times those of f. It takes time linear in the parts of both.
pub fn is_multiple(terms: &Terms, a: Whole, f: &Form, g: &Form) -> Result<bool, NoMemory>
    requires first { IsOver (length terms.now) (linear_form f.now) }
    requires second { IsOver (length terms.now) (linear_form g.now) }
    ensures { IfOk result (λ yes. yes ≡ is_multiple (number_of a) (seen_form (tree_at terms.now) f.now) (seen_form (tree_at terms.now) g.now)) }
{
    terms.one_number_for_each_term();
    let none = IndexMap::new(terms.allocator());
    let Some(scaled) = plus_parts(none, Measure::Times(a), &f.parts)? else {
        return Ok(false);
    };
    let Some(left) = plus_parts(scaled, Measure::Minus, &g.parts)? else {
        return Ok(false);
    };
    Ok(all_zero(&left))
}
