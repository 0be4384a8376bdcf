//! Sums of multiples of forms.
ghost use Rattle.std.specs.Prelude.{◌≡◌, ◌<◌, All, length, map, option_map, IfOk, IfSome};
ghost use Rattle.wy_lin.specs.Combination.{form_at, combined};
ghost use Rattle.wy_lin.specs.Worth.{IsTotal};
ghost use Rattle.wy_lin.specs.Seen.{Gives, linear_form, linear_sum};

use crate::arithmetic::Factor;
use crate::linear::Form;
use crate::stop::Stop;
use crate::sum::{Sum, answered, number_sum, plus};
use std::alloc::Global;
use wy_term::NoMemory;

// The form at a place, from 0.
#[tactic(auto, using(crate::proofs::WorkLemmas::form_there, crate::proofs::WorkLemmas::form_found))]
fn form_at(forms: &[Form], i: u32) -> &Form
    requires { i < length forms.now }
    ensures value { linear_form result.now ≡ form_at (map linear_form forms.now) i }
{
    &forms[i as usize]
}

fn sum_of(alloc: Global, forms: &[Form], multipliers: &[(u128, u32)]) -> Result<Sum, Stop>
    requires { All (λ m. m.1 < length forms.now) multipliers.now }
    ensures gives { Gives linear_sum result (combined (map linear_form forms.now) multipliers.now) }
{
    let mut sum = number_sum(alloc, 0);
    for (m, i) in multipliers {
        sum = plus(sum, Factor::Times(*m), form_at(forms, *i))?;
    }
    Ok(sum)
}

/// The sum of multiples of forms: each multiplier stands beside the place, from 0, of its form. There is none exactly
/// where a product with a multiplier or a partial sum, from the left, leaves 128 bits; else it is exact, whatever the
/// variables stand for. The variables come by first appearance. It takes time linear in the parts of the forms that are
/// named, each counted as often as it is named.
pub fn combine(
    alloc: Global,
    forms: &[Form],
    multipliers: &[(u128, u32)],
) -> Result<Option<Form>, NoMemory>
    requires { All (λ m. m.1 < length forms.now) multipliers.now }
    ensures value { IfOk result (λ o. option_map linear_form o ≡ combined (map linear_form forms.now) multipliers.now) }
    ensures exact { IfOk result (λ o. IfSome o (λ f. IsTotal (linear_form f) (map linear_form forms.now) multipliers.now)) }
{
    answered(alloc, sum_of(alloc, forms, multipliers))
}
