//! The forms of literals of old atoms.
ghost use Rattle.std.specs.Prelude.{◌≡◌, ℕ, Bool, Some, cond, nat_eq, IfOk, OnOk};
ghost use Rattle.wy_search_bounds.specs.Known.{lasting_place, place_there, AreNoted, Notes};
ghost use Rattle.wy_cong.specs.wy_check_nodes.Seen.{same_signed};
ghost use Rattle.wy_term.specs.Term.{Term};

use crate::made::push_form;
use std::alloc::Global;
use wy_lin::Form;
use wy_term::NoMemory;

/// The forms that were made, and, by the atom's number, for each literal that holds and for each that is denied, the place of
/// its form, from 0, or that it has none; or nothing, where nothing is noted of the literal.
#[derive(Drop)]
pub struct LastingForms {
    pub holding: Vec<Option<Option<usize>>>,
    pub denied: Vec<Option<Option<usize>>>,
    pub made: Vec<Form>,
}

/// No form was made yet. It takes no memory.
pub fn no_lasting(alloc: Global) -> LastingForms
    ensures { (n : ℕ) → (at : ℕ → Term) → AreNoted n at (lasting_place result) result.made.items }
{
    let holding = Vec::new(alloc);
    let denied = Vec::new(alloc);
    let made = Vec::new(alloc);
    LastingForms {
        holding,
        denied,
        made,
    }
}

fn place_there(places: &[Option<Option<usize>>], atom: u32) -> Option<Option<usize>>
    ensures { result ≡ place_there places.now atom }
{
    match places.get(atom as usize) {
        Some(place) => *place,
        None => None,
    }
}

/// What is noted of a literal, in constant time.
pub fn lasting_place(table: &LastingForms, literal: (u32, bool)) -> Option<Option<usize>>
    ensures { result ≡ lasting_place table.now literal }
{
    if literal.1 {
        place_there(&table.holding, literal.0)
    } else {
        place_there(&table.denied, literal.0)
    }
}

// This place for an atom.
fn put(
    places: &mut Vec<Option<Option<usize>>>,
    atom: u32,
    place: Option<usize>,
) -> Result<(), NoMemory>
    ensures { OnOk result ((a : ℕ) → place_there places.new.items a ≡ cond (nat_eq atom a) (Some place) (place_there places.old.items a)) }
{
    let index = atom as usize;
    while places.len() <= index {
        places.push(None)?;
    }
    places[index] = Some(place);
    Ok(())
}

fn put_signed(
    table: &mut LastingForms,
    literal: (u32, bool),
    place: Option<usize>,
) -> Result<(), NoMemory>
    ensures places { OnOk result ((q : ℕ × Bool) → lasting_place table.new q ≡ cond (same_signed literal q) (Some place) (lasting_place table.old q)) }
    ensures made { table.new.made ≡ table.old.made }
{
    if literal.1 {
        put(&mut table.holding, literal.0, place)
    } else {
        put(&mut table.denied, literal.0, place)
    }
}

/// Notes the form of a literal, and answers its place. It takes memory linear in the highest number of an atom.
pub fn note_lasting(
    table: &mut LastingForms,
    literal: (u32, bool),
    form: Option<Form>,
) -> Result<Option<usize>, NoMemory>
    ensures { IfOk result (Notes (lasting_place table.old) table.old.made.items (lasting_place table.new) table.new.made.items literal form) }
{
    let place = push_form(&mut table.made, form)?;
    put_signed(table, literal, place)?;
    Ok(place)
}
