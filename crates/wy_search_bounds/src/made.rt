//! A form behind others.
ghost use Rattle.std.specs.Prelude.{◌≡◌, ℕ, option_map, IfOk, IfSome, OnOk};
ghost use Rattle.wy_search_bounds.specs.Known.{IsFormIn, StartsWithForms};
ghost use Rattle.wy_lin.specs.Seen.{linear_form, seen_form, IsOver};
ghost use Rattle.wy_term.specs.Term.{Term};

use wy_lin::Form;
use wy_term::NoMemory;

/// A form behind the others, if there is one, and its place.
pub fn push_form(made: &mut Vec<Form>, form: Option<Form>) -> Result<Option<usize>, NoMemory>
    ensures value { (n : ℕ) → (at : ℕ → Term) → IfSome form (λ f. IsOver n (linear_form f)) → IfOk result (λ o. IsFormIn n at made.new.items o (option_map (seen_form at) form)) }
    ensures grows { OnOk result (StartsWithForms made.old.items made.new.items) }
{
    match form {
        Some(f) => {
            let place = made.len();
            made.push(f)?;
            Ok(Some(place))
        }
        None => Ok(None),
    }
}
