//! The forms of literals that were made once.
ghost use Rattle.std.specs.Prelude.{◌≡◌, ◌<◌, ◌≤◌, ◌+◌, ℕ, List, Some, length, option_map, slice_get, true, IfOk, IfSome, OnOk};
ghost use Rattle.wy_search_bounds.specs.Known.{form_of_signed, form_placed, AgreesUpTo, AreKnown, IsFormAt, IsFormOf, IsPlace};
ghost use Rattle.wy_search_bounds.specs.declared.known.Place.TheVariants as placed;
ghost use Rattle.wy_cong.specs.wy_facts.Seen.{Stays};
ghost use Rattle.wy_cong.specs.wy_check_nodes.Seen.{seen_branch, IsBranch};
ghost use Rattle.wy_lin.specs.Seen.{linear_form, IsOver};
ghost use Rattle.wy_term.specs.Nodes.{tree_at, Plain};
ghost use Rattle.wy_term.specs.Term.{Term};
ghost use Rattle.wy_cong.specs.wy_check_spec.valid.Sums.{form_at};

use crate::lasting::{LastingForms, lasting_place, no_lasting, note_lasting};
use crate::passing::{PassingForms, no_passing, note_passing, passing_place};
use std::alloc::Global;
use wy_cong::{Branch, form_at, nth_literal};
use wy_lin::Form;
use wy_term::{NoMemory, Terms};

/// The forms of literals that were made. A literal says the same in each node of a search, so one table serves them all; and one
/// whose atom and variables are among the terms below the floor says the same in each search of a list of conditions, since a
/// search takes away the terms that it made and no older one. So what lasts outlives a search, and what passes doesn't.
#[derive(Drop)]
pub struct KnownForms {
    pub floor: usize,
    pub lasting: LastingForms,
    pub passing: PassingForms,
}

/// In which table a form stands, and where there, from 0.
#[derive(Clone, Copy, Debug, PartialEq, Eq)]
pub enum Place {
    Lasting(usize),
    Passing(usize),
}

/// No form was made yet; those of terms below the floor are to last. It takes no memory.
pub fn no_forms(alloc: Global, floor: usize) -> KnownForms
    ensures { (nodes : List Plain) → floor ≤ length nodes → AreKnown nodes result }
{
    KnownForms {
        floor,
        lasting: no_lasting(alloc),
        passing: no_passing(alloc),
    }
}

/// Forgets each form that may name a term from this count on. It takes no memory.
pub fn forget_from(alloc: Global, known: &mut KnownForms, count: usize)
    ensures { (old new : List Plain) → AgreesUpTo count old new → AreKnown old known.old → AreKnown new known.new }
{
    known.passing = no_passing(alloc);
    if count < known.floor {
        known.lasting = no_lasting(alloc);
        known.floor = count;
    }
}

/// The number of the literal with a place.
pub fn literal_number(i: usize) -> Result<u32, NoMemory>
    ensures { IfOk result (λ k. k ≡ i + 1) }
{
    match u32::try_from(i) {
        Ok(k) => match k.checked_add(1) {
            Some(number) => Ok(number),
            None => Err(NoMemory),
        },
        Err(_) => Err(NoMemory),
    }
}

// Whether each variable of a form is one of the first terms.
fn is_over(form: &Form, floor: usize) -> bool
    ensures { result ≡ true → IsOver floor (linear_form form.now) }
{
    for part in form.parts.as_slice() {
        if floor <= part.1 as usize {
            return false;
        }
    }
    true
}

// Whether a literal and its form are over the first terms.
fn lasts(literal: (u32, bool), form: &Option<Form>, floor: usize) -> bool
    ensures { (n : ℕ) → (at : ℕ → Term) → IsFormOf n at literal form.now → result ≡ true → IsFormOf floor at literal form.now }
{
    if floor <= literal.0 as usize {
        return false;
    }
    match form {
        Some(f) => is_over(f, floor),
        None => true,
    }
}

fn as_lasting(place: Option<usize>) -> Option<Place>
    ensures { result ≡ option_map placed.Lasting place }
{
    match place {
        Some(k) => Some(Place::Lasting(k)),
        None => None,
    }
}

fn as_passing(place: Option<usize>) -> Option<Place>
    ensures { result ≡ option_map placed.Passing place }
{
    match place {
        Some(k) => Some(Place::Passing(k)),
        None => None,
    }
}

// Notes the form of a literal that isn't known yet.
fn note(
    terms: &Terms,
    known: &mut KnownForms,
    literal: (u32, bool),
    form: Option<Form>,
) -> Result<Option<Place>, NoMemory>
    requires known { AreKnown terms.now known.old }
    requires form { IsFormOf (length terms.now) (tree_at terms.now) literal form }
    ensures value { IfOk result (λ o. IsFormAt terms.now known.new o (form_of_signed (tree_at terms.now) literal)) }
    ensures known { OnOk result (AreKnown terms.now known.new) }
{
    let _terms = terms;
    if lasts(literal, &form, known.floor) {
        let place = note_lasting(&mut known.lasting, literal, form)?;
        Ok(as_lasting(place))
    } else {
        let place = note_passing(&mut known.passing, literal, form)?;
        Ok(as_passing(place))
    }
}

// The form of a literal that isn't known yet is made and noted.
fn make(
    terms: &mut Terms,
    known: &mut KnownForms,
    branch: &Branch,
    i: usize,
    literal: (u32, bool),
) -> Result<Option<Place>, NoMemory>
    requires branch { IsBranch terms.old branch.now }
    requires known { AreKnown terms.old known.old }
    requires literal { literal.0 < length terms.old }
    requires here { slice_get branch.now.literals.keys i ≡ Some literal }
    ensures value { IfOk result (λ o. IsFormAt terms.new known.new o (form_at (seen_branch (tree_at terms.old) branch.now).literals (i + 1))) }
    ensures known { OnOk result (AreKnown terms.new known.new) }
    ensures stays { Stays terms.old terms.new }
{
    let number = literal_number(i)?;
    let form = form_at(terms, branch, number)?;
    note(terms, known, literal, form)
}

// The place of a literal's form, if the literal is known.
fn noted_place(known: &KnownForms, literal: (u32, bool)) -> Option<Option<Place>>
    ensures { (nodes : List Plain) → AreKnown nodes known.now → IfSome result (λ o. IsFormAt nodes known.now o (form_of_signed (tree_at nodes) literal)) }
{
    match lasting_place(&known.lasting, literal) {
        Some(place) => Some(as_lasting(place)),
        None => match passing_place(&known.passing, literal) {
            Some(place) => Some(as_passing(place)),
            None => None,
        },
    }
}

/// The place of the form of the literal with a place, if it has a form. The first time that this is asked of a literal it takes
/// the time of `form`, then constant time on average. Older numbers name what they named.
pub fn place_of_form(
    terms: &mut Terms,
    known: &mut KnownForms,
    branch: &Branch,
    i: usize,
) -> Result<Option<Place>, NoMemory>
    requires branch { IsBranch terms.old branch.now }
    requires known { AreKnown terms.old known.old }
    requires place { i < length branch.now.literals.keys }
    ensures value { IfOk result (λ o. IsFormAt terms.new known.new o (form_at (seen_branch (tree_at terms.old) branch.now).literals (i + 1))) }
    ensures known { OnOk result (AreKnown terms.new known.new) }
    ensures stays { Stays terms.old terms.new }
{
    let literal = nth_literal(terms, branch, i);
    match noted_place(known, literal) {
        Some(place) => Ok(place),
        None => make(terms, known, branch, i, literal),
    }
}

/// The form with a place, in constant time.
pub fn known_form(known: &KnownForms, place: Place) -> &Form
    requires { IsPlace known.now place }
    ensures { form_placed known.now place ≡ Some result.now }
{
    match place {
        Place::Lasting(k) => &known.lasting.made[k],
        Place::Passing(k) => &known.passing.made[k],
    }
}
