//! The forms that elimination is given.
ghost use Rattle.wy_search_bounds.specs.wy_cong.Seen.{IsPresent};
ghost use Rattle.wy_facts.specs.Seen.{Stays};
ghost use Rattle.wy_check_nodes.specs.Seen.{IsBranch};

use wy_check_nodes::{Branch, form_at};
use wy_lin::Form;
use wy_search_bounds::{Present, Replaced, numbered, replace};
use wy_term::{NoMemory, Terms};

/// The forms that elimination is given, each with the place of its literal; the place of a literal that refutes by itself, and
/// whether a number leaves 128 bits.
#[derive(Drop)]
pub struct Sources {
    pub refuting: Option<usize>,
    pub leaves: bool,
    pub forms: Vec<Form>,
    pub literals: Vec<usize>,
}

// The number of the literal with a place.
fn literal_number(i: usize) -> Result<u32, NoMemory> {
    match u32::try_from(i) {
        Ok(k) => match k.checked_add(1) {
            Some(number) => Ok(number),
            None => Err(NoMemory),
        },
        Err(_) => Err(NoMemory),
    }
}

/// The form of the literal with a place, its variables by their places. Older numbers name what they named.
pub fn placed_form(
    terms: &mut Terms,
    branch: &Branch,
    present: &Present,
    i: usize,
) -> Result<Option<Form>, NoMemory>
    requires branch { IsBranch terms.old branch.now }
    requires present { IsPresent terms.old present.now }
    ensures { Stays terms.old terms.new }
{
    let number = literal_number(i)?;
    match form_at(terms, branch, number)? {
        Some(form) => {
            let placed = numbered(terms, present, &form)?;
            Ok(Some(placed))
        }
        None => Ok(None),
    }
}

// What is left of the form of the literal with a place.
fn take(sources: &mut Sources, i: usize, one: Replaced) -> Result<(), NoMemory> {
    match one {
        Replaced::Gone => {}
        Replaced::Given(form) => {
            sources.forms.push(form)?;
            sources.literals.push(i)?;
        }
        Replaced::Refutes => sources.refuting = Some(i),
        Replaced::Leaves => sources.leaves = true,
    }
    Ok(())
}

fn take_literal(
    terms: &mut Terms,
    branch: &Branch,
    present: &Present,
    labels: &[u32],
    i: usize,
    sources: &mut Sources,
) -> Result<(), NoMemory>
    requires branch { IsBranch terms.old branch.now }
    requires present { IsPresent terms.old present.now }
    ensures { Stays terms.old terms.new }
{
    match placed_form(terms, branch, present, i)? {
        Some(placed) => {
            let one = replace(terms.allocator(), labels, placed)?;
            take(sources, i, one)
        }
        None => Ok(()),
    }
}

/// What is left of the forms of the node's literals. Older numbers name what they named.
pub fn sources_of(
    terms: &mut Terms,
    branch: &Branch,
    present: &Present,
    labels: &[u32],
) -> Result<Sources, NoMemory>
    requires branch { IsBranch terms.old branch.now }
    requires present { IsPresent terms.old present.now }
    ensures { Stays terms.old terms.new }
{
    let alloc = terms.allocator();
    let mut sources = Sources {
        refuting: None,
        leaves: false,
        forms: Vec::new(alloc),
        literals: Vec::new(alloc),
    };
    for i in 0..branch.literals.len() {
        take_literal(terms, branch, present, labels, i, &mut sources)?;
    }
    Ok(sources)
}
