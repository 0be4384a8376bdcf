//! Forms and coefficients at places of a list, from 0. Where there is none, the form is 0.
ghost use Rattle.std.specs.Prelude.{◌≡◌, map, nat_eq, IfSome};
ghost use Rattle.wy_lin.specs.Linear.{coefficient as coefficient_of};
ghost use Rattle.wy_lin.specs.Combination.{form_at};
ghost use Rattle.wy_lin.specs.Seen.{linear_form};
ghost use Rattle.wy_lin_eliminate.specs.Variables as variables;

use wy_items::at;
use wy_lin::Form;

/// The form at a place, if there is one.
pub fn form_at(all: &[Form], i: u32) -> Option<&Form>
    ensures value { IfSome result (λ f. linear_form f.now ≡ form_at (map linear_form all.now) i) }
{
    at(all, i as usize)
}

/// The parts of the form at a place.
pub fn parts_at(all: &[Form], i: u32) -> &[(i128, u32)]
    ensures value { result.now ≡ (form_at (map linear_form all.now) i).parts }
{
    match at(all, i as usize) {
        Some(form) => form.parts.as_slice(),
        None => &[],
    }
}

/// The constant of the form at a place.
pub fn constant_at(all: &[Form], i: u32) -> i128
    ensures value { result ≡ (form_at (map linear_form all.now) i).constant }
{
    match at(all, i as usize) {
        Some(form) => form.constant,
        None => 0,
    }
}

/// The coefficient of a variable: 0 where it has no part.
pub fn coefficient(parts: &[(i128, u32)], v: u32) -> i128
    ensures value { result ≡ coefficient_of nat_eq parts.now v }
{
    for part in parts {
        if v == part.1 {
            return part.0;
        }
    }
    0
}

/// The coefficient of a variable in the form at a place.
pub fn coefficient_at(all: &[Form], v: u32, i: u32) -> i128
    ensures value { result ≡ variables.coefficient_at (map linear_form all.now) v i }
{
    coefficient(parts_at(all, i), v)
}
