//! By which numbers one form comes of another.
ghost use Rattle.std.specs.Prelude.{◌≡◌, ◌≢◌, ◌<◌, ℕ, pos, All, map, length, option_map, IfSome, IfOk};
ghost use Rattle.wy_term.specs.Term.{Term};
ghost use Rattle.wy_term.specs.Nodes.{tree_at};
ghost use Rattle.wy_term.specs.Same.{same_term};
ghost use Rattle.wy_lin.specs.Linear.{coefficient};
ghost use Rattle.wy_lin.specs.Seen.{IsOver, linear_form, seen_form, seen_part};
ghost use Rattle.wy_vc_laws.specs.wy_check_spec.valid.Products.{leading, affine};
ghost use Rattle.wy_check.specs.Seen.{AreAffine};

use crate::multiples::is_multiple;
use crate::whole::{Whole, less_product, ratio};
use wy_lin::Form;
use wy_term::{NoMemory, Terms};

/// A form is a factor, other than 0, times another, and a number more. The number isn't there where its products with numbers
/// other than 0 aren't numbers of 128 bits.
#[derive(Clone, Copy, Debug, PartialEq, Eq)]
pub struct Affine {
    pub factor: Whole,
    pub more: Option<Whole>,
}

// The first variable that a form has, with its coefficient.
fn leading(parts: &[(i128, u32)]) -> Option<(i128, u32)>
    ensures value { (at : ℕ → Term) → option_map (seen_part at) result ≡ leading (map (seen_part at) parts.now) }
    ensures nonzero { IfSome result (λ p. p.0 ≢ pos 0) }
    ensures within { (n : ℕ) → All (λ p. p.1 < n) parts.now → IfSome result (λ p. p.1 < n) }
{
    for part in parts {
        if part.0 != 0 {
            return Some(*part);
        }
    }
    None
}

// The coefficient of a variable: 0 where it has no part.
fn coefficient(terms: &Terms, parts: &[(i128, u32)], v: u32) -> i128
    requires parts { All (λ p. p.1 < length terms.now) parts.now }
    requires variable { v < length terms.now }
    ensures { result ≡ coefficient same_term (map (seen_part (tree_at terms.now)) parts.now) (tree_at terms.now v) }
{
    for part in parts {
        if terms.same(v, part.1) {
            return part.0;
        }
    }
    0
}

/// The numbers by which the second form comes of the first, where it does and the first has a variable. It takes time linear
/// in the parts of both.
pub fn relation(terms: &Terms, f: &Form, g: &Form) -> Result<Option<Affine>, NoMemory>
    requires first { IsOver (length terms.now) (linear_form f.now) }
    requires second { IsOver (length terms.now) (linear_form g.now) }
    ensures { IfOk result (λ o. AreAffine o (affine (seen_form (tree_at terms.now) f.now) (seen_form (tree_at terms.now) g.now))) }
{
    let Some((c, v)) = leading(&f.parts) else {
        return Ok(None);
    };
    let Some(factor) = ratio(c, coefficient(terms, &g.parts, v)) else {
        return Ok(None);
    };
    if !is_multiple(terms, factor, f, g)? {
        return Ok(None);
    }
    Ok(Some(Affine {
        factor,
        more: less_product(g.constant, factor, f.constant),
    }))
}
