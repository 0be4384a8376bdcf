//! The words of variables, and what is known of single nodes.
ghost use Rattle.std.specs.Prelude.{◌≡◌, ◌<◌, ◌≤◌, suc, ℕ, List, length as count_of, IfOk, OnOk};
ghost use Rattle.wy_term.specs.Term.{Term};
ghost use Rattle.wy_term.specs.Numbers.{IsAt};
ghost use Rattle.wy_vc_tables.specs.wy_vc_spec.Numbered as numbers;
ghost use Rattle.wy_vc_tables.specs.wy_vc_spec.Values as spec;
ghost use Rattle.wy_vc_tables.specs.wy_vc_spec.Variables.{Vars};
ghost use Rattle.wy_vc_tables.specs.program_names.Described.{is_number_in};
ghost use Rattle.wy_vc_operations.specs.Growing.{AreSlotsAt, Makes};

use std::alloc::{AllocError, Global};
use wy_data::Name;
use wy_term::{NoMemory, Terms};
use wy_vc_operations::{null, slot_at};
use wy_vc_tables::program_names::Program;

/// The most elements that an array has.
pub const LENGTH_MAX: i128 = 9223372036854775807;

/// The word of bound numbers.
pub fn k_word(alloc: Global) -> Result<Name, AllocError>
    ensures value { IfOk result (λ word. word ≡ spec.k_word) }
{
    Ok(Name::new(String::from_str(alloc, "k")?))
}

/// The word of variables without a name.
pub fn x_word(alloc: Global) -> Result<Name, AllocError>
    ensures value { IfOk result (λ word. word ≡ spec.x_word) }
{
    Ok(Name::new(String::from_str(alloc, "x")?))
}

/// The word of a variable.
pub fn word_of(alloc: Global, words: &[Name], variable: u32) -> Result<Name, AllocError>
    ensures value { IfOk result (λ word. word ≡ spec.word_at words.now variable) }
{
    match words.get(variable as usize) {
        None => x_word(alloc),
        Some(word) => word.copy(alloc),
    }
}

/// The term of a variable, `null` where it has none. Want of memory is also the answer where its slot has no number of a term.
pub fn variable(terms: &mut Terms, vars: &[Option<u32>], variable: u32) -> Result<u32, NoMemory>
    ensures within { IfOk result (λ r. r < count_of terms.new) }
    ensures grows { OnOk result (count_of terms.old ≤ count_of terms.new) }
    ensures made { (slots : Vars) → AreSlotsAt terms.old vars.now slots → IfOk result (λ r. Makes terms.old terms.new r (spec.variable slots variable)) }
{
    match slot_at(vars, variable) {
        None => null(terms),
        Some(term) => {
            if (term as usize) < terms.len() {
                Ok(term)
            } else {
                Err(NoMemory)
            }
        }
    }
}

/// Whether the expression before the one with this number is a number.
pub fn is_number(program: &Program, next: usize) -> bool
    ensures value { (k : numbers.Node) → suc k.number ≡ next → result ≡ is_number_in program.now.is_number.items k }
{
    if next == 0 {
        return false;
    }
    program.is_number_at(next - 1)
}
