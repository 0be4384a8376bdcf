//! The forms of literals of one search.
ghost use Rattle.std.specs.Prelude.{◌≡◌, ℕ, IfOk};
ghost use Rattle.std.specs.HashMap.{get};
ghost use Rattle.wy_search_bounds.specs.Known.{AreNoted, Notes};
ghost use Rattle.wy_cong.specs.wy_check_nodes.Seen.{same_signed};
ghost use Rattle.wy_term.specs.Term.{Term};

use crate::made::push_form;
use std::alloc::Global;
use std::collections::HashMap;
use wy_lin::Form;
use wy_term::NoMemory;

/// The forms that were made, and for each literal that was asked for, by its atom's number and whether it holds, the place of
/// its form, from 0, or that it has none.
#[derive(Drop)]
pub struct PassingForms {
    pub places: HashMap<(u32, bool), Option<usize>>,
    pub made: Vec<Form>,
}

/// No form was made yet. It takes no memory.
pub fn no_passing(alloc: Global) -> PassingForms
    ensures { (n : ℕ) → (at : ℕ → Term) → AreNoted n at (get same_signed result.places) result.made.items }
{
    let places = HashMap::new(alloc);
    let made = Vec::new(alloc);
    PassingForms { places, made }
}

/// What is noted of a literal, in constant time on average.
pub fn passing_place(table: &PassingForms, literal: (u32, bool)) -> Option<Option<usize>>
    ensures { result ≡ get same_signed table.now.places literal }
{
    table.places.get(&literal).copied()
}

/// Notes the form of a literal, and answers its place.
pub fn note_passing(
    table: &mut PassingForms,
    literal: (u32, bool),
    form: Option<Form>,
) -> Result<Option<usize>, NoMemory>
    ensures { IfOk result (Notes (get same_signed table.old.places) table.old.made.items (get same_signed table.new.places) table.new.made.items literal form) }
{
    let place = push_form(&mut table.made, form)?;
    table.places.insert(literal, place)?;
    Ok(place)
}
