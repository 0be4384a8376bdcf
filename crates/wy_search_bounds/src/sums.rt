//! The sum of a form and what takes variables away from it.
ghost use Rattle.std.specs.Prelude.{◌≡◌, ◌<◌, ◌≤◌, ◌*◌, ◌^◌, map, option_map, IfOk, MatchOption};
ghost use Rattle.wy_search_bounds.specs.Seen.{seen_takings, forms_to_add, multipliers_of, sum_with, AreMultipliers};
ghost use Rattle.wy_lin.specs.Seen.{linear_form};

use crate::forms::copied;
use crate::removal::Taking;
use std::alloc::Global;
use wy_lin::{Form, combine};
use wy_term::NoMemory;

// The product, where it is below 2^127.
fn multiplier(k: u128, times: u128) -> Option<u128>
    ensures { MatchOption result (2 ^ 127 ≤ k * times) (λ m. (m ≡ k * times) × (m < 2 ^ 127)) }
{
    match k.checked_mul(times) {
        Some(m) => { if m < 1 << 127 { Some(m) } else { None } }
        None => None,
    }
}

// The form, and behind it those that take variables away.
fn forms_to_add(alloc: Global, form: &Form, takings: &[Taking]) -> Result<Vec<Form>, NoMemory>
    ensures { IfOk result (λ fs. map linear_form fs.items ≡ forms_to_add (linear_form form.now) (seen_takings takings.now)) }
{
    let mut forms = Vec::new(alloc);
    forms.push(copied(alloc, form)?)?;
    for taking in takings {
        forms.push(copied(alloc, &taking.form)?)?;
    }
    Ok(forms)
}

/// An index as the number of a form or of a place.
pub fn form_number(i: usize) -> Result<u32, NoMemory>
    ensures { IfOk result (λ k. k ≡ i) }
{
    match u32::try_from(i) {
        Ok(k) => Ok(k),
        Err(_) => Err(NoMemory),
    }
}

// The multipliers of all of these, each so many times, where they fit.
fn multipliers(
    alloc: Global,
    takings: &[Taking],
    k: u128,
) -> Result<Option<Vec<(u128, u32)>>, NoMemory>
    requires { k < 2 ^ 127 }
    ensures { IfOk result (λ o. AreMultipliers (option_map (λ v. v.items) o) (multipliers_of k (seen_takings takings.now))) }
{
    let mut made = Vec::new(alloc);
    made.push((k, 0))?;
    for taking in takings {
        match multiplier(k, taking.times) {
            Some(m) => {
                let number = form_number(made.len())?;
                made.push((m, number))?;
            }
            None => return Ok(None),
        }
    }
    Ok(Some(made))
}

/// The sum of a form and what takes variables away from it, so many times, where its numbers fit 128 bits.
pub fn sum_with(
    alloc: Global,
    form: &Form,
    takings: &[Taking],
    k: u128,
) -> Result<Option<Form>, NoMemory>
    requires { k < 2 ^ 127 }
    ensures { IfOk result (λ o. option_map linear_form o ≡ sum_with (linear_form form.now) (seen_takings takings.now) k) }
{
    let Some(multipliers) = multipliers(alloc, takings, k)? else {
        return Ok(None);
    };
    let forms = forms_to_add(alloc, form, takings)?;
    match combine(alloc, &forms, &multipliers) {
        Ok(made) => Ok(made),
        Err(_) => Err(NoMemory),
    }
}
