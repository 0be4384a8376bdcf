//! What is left of a form once each variable is replaced by the first of its class.
ghost use Rattle.std.specs.Prelude.{◌≡◌, ◌<◌, pos, int_lt, if◌then◌else◌, IfOk};
ghost use Rattle.wy_search_bounds.specs.Firsts.{AreFirsts};
ghost use Rattle.wy_search_bounds.specs.Seen.{seen_replaced, seen_takings, sum_with};
ghost use Rattle.wy_lin_eliminate.specs.Division as division;
ghost use Rattle.wy_lin.specs.Seen.{linear_form};
ghost use Rattle.wy_cong.specs.wy_search_spec.Bounds as bounds;

use crate::firsts::first_places;
use crate::removal::{Taking, takings_by};
use crate::sums::sum_with;
use std::alloc::Global;
use wy_lin::Form;
use wy_lin_eliminate::{common, lowered};
use wy_term::NoMemory;

/// What replacing gives.
#[derive(Drop)]
pub enum Replaced {
    /// The form says nothing any more.
    Gone,
    /// A form.
    Given(Form),
    /// The form can't be at least 0.
    Refutes,
    /// A number leaves 128 bits.
    Leaves,
}

// The form divided.
fn divided(alloc: Global, d: u128, form: &Form) -> Result<Replaced, NoMemory>
    requires { 0 < d }
    ensures { IfOk result (λ r. seen_replaced r ≡ bounds.given (division.lowered d (linear_form form.now))) }
{
    match lowered(alloc, d, form) {
        Ok(made) => Ok(Replaced::Given(made)),
        Err(_) => Err(NoMemory),
    }
}

// What a form without variables says.
fn without_variables(constant: i128) -> Replaced
    ensures { seen_replaced result ≡ (if int_lt constant (pos 0) then bounds.refutes else bounds.gone) }
{
    if constant < 0 {
        Replaced::Refutes
    } else {
        Replaced::Gone
    }
}

// By the sum, taken once; where its coefficients have no divisor but 1, twice the sum is divided by 2.
fn by_sum(alloc: Global, form: &Form, takings: &[Taking], sum: &Form) -> Result<Replaced, NoMemory>
    ensures { IfOk result (λ r. seen_replaced r ≡ bounds.by_common (sum_with (linear_form form.now) (seen_takings takings.now) 2) (linear_form sum.now) (division.common (linear_form sum.now).parts)) }
{
    let d = common(&sum.parts);
    if d == 0 {
        return Ok(without_variables(sum.constant));
    }
    if d > 1 {
        return divided(alloc, d, sum);
    }
    match sum_with(alloc, form, takings, 2)? {
        Some(twice) => divided(alloc, 2, &twice),
        None => Ok(Replaced::Leaves),
    }
}

/// What is left of a form, where the first places of classes are listed, in time linear in its parts.
pub fn replace_by(
    alloc: Global,
    labels: &[u32],
    firsts: &[u32],
    form: Form,
) -> Result<Replaced, NoMemory>
    requires { AreFirsts labels.now firsts.now }
    ensures { IfOk result (λ r. seen_replaced r ≡ bounds.replaced labels.now (linear_form form)) }
{
    let takings = takings_by(alloc, labels, firsts, &form.parts)?;
    if takings.is_empty() {
        return Ok(Replaced::Given(form));
    }
    match sum_with(alloc, &form, &takings, 1)? {
        Some(sum) => by_sum(alloc, &form, &takings, &sum),
        None => Ok(Replaced::Leaves),
    }
}

/// What is left of a form, in time linear in the places and in its parts.
pub fn replace(alloc: Global, labels: &[u32], form: Form) -> Result<Replaced, NoMemory>
    ensures { IfOk result (λ r. seen_replaced r ≡ bounds.replaced labels.now (linear_form form)) }
{
    let firsts = first_places(alloc, labels)?;
    replace_by(alloc, labels, &firsts, form)
}
