//! Which forms can't be at least 0.
ghost use Rattle.std.specs.Prelude.{◌≡◌, ℕ, map, IfOk};
ghost use Rattle.wy_check_spec.specs.wy_term.Term.{Term};
ghost use Rattle.wy_check_spec.specs.wy_term.Nodes.{tree_at};
ghost use Rattle.wy_check_spec.specs.wy_facts.Seen.{Stays};
ghost use Rattle.wy_check_nodes.specs.Seen.{seen_branch, IsBranch};
ghost use Rattle.wy_check_spec.specs.wy_lin.Seen.{seen_form, seen_part};
ghost use Rattle.wy_check_spec.specs.valid.Sums.{all_zero, refutes, summed, is_refuting};

use crate::branch::Branch;
use crate::summed::form_of_sum;
use wy_check_spec::{Form, NoMemory, Terms};

// Whether no variable is left.
fn all_zero(parts: &[(i128, u32)]) -> bool
    ensures value { (at : ℕ → Term) → result ≡ all_zero (map (seen_part at) parts.now) }
{
    for part in parts {
        if part.0 != 0 {
            return false;
        }
    }
    true
}

// Whether no variable is left and the number is negative.
fn refutes(form: &Form) -> bool
    ensures value { (at : ℕ → Term) → result ≡ refutes (seen_form at form.now) }
{
    form.constant < 0 && all_zero(&form.parts)
}

/// Whether the sum of multiples of literals' forms exists and can't be at least 0, so that not all of these literals hold.
pub fn is_refuting(
    terms: &mut Terms,
    branch: &Branch,
    pairs: &[(u128, u32)],
) -> Result<bool, NoMemory>
    requires { IsBranch terms.old branch.now }
    ensures value { IfOk result (λ yes. yes ≡ is_refuting (summed (seen_branch (tree_at terms.old) branch.now).literals pairs.now)) }
    ensures stays { Stays terms.old terms.new }
{
    match form_of_sum(terms, branch, pairs)? {
        Some(form) => Ok(refutes(&form)),
        None => Ok(false),
    }
}
