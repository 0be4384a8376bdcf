//! Elimination of all variables.
ghost use Rattle.std.specs.Prelude.{◌≡◌, map, IfOk};
ghost use Rattle.wy_lin.specs.Seen.{linear_form};
ghost use Rattle.wy_lin_eliminate.specs.Elimination as elimination;
ghost use Rattle.wy_lin_eliminate.specs.Seen.{seen_table, seen_turn, IsNext};

use crate::given::{at_first, given};
use crate::steps::{Elim, Steps};
use crate::table::{Outcome, Table, is_crowded};
use crate::tally::{next_variable, number, variables};
use crate::turns::turned;
use std::alloc::Global;
use wy_lin::{Form, NoMemory};

/// What a turn ends with, or the table with which elimination goes on.
#[derive(Drop)]
pub enum Next {
    Ends(Elim),
    GoesOn(Table),
}

// What a turn ends with.
fn ended(outcome: Outcome) -> Next
    ensures value { IsNext result (elimination.ended (seen_turn outcome)) }
{
    match outcome {
        Outcome::Refuted(list) => Next::Ends(Elim::Refuted(Steps { list })),
        Outcome::GoesOn(table) => {
            if is_crowded(&table) {
                Next::Ends(Elim::Crowded)
            } else if table.wide {
                Next::Ends(Elim::Wide)
            } else {
                Next::GoesOn(table)
            }
        }
    }
}

// The next variable goes.
fn without_next(alloc: Global, table: Table) -> Result<Next, NoMemory>
    ensures value { IfOk result (λ n. IsNext n (elimination.step (seen_table table))) }
{
    let found = variables(alloc, table.all.as_slice(), table.standing.as_slice())?;
    match next_variable(&found) {
        None => Ok(Next::Ends(Elim::Consistent)),
        Some(best) => Ok(ended(turned(alloc, best.0, table)?)),
    }
}

// So many variables go.
fn eliminated(alloc: Global, count: usize, table: Table) -> Result<Elim, NoMemory>
    ensures value { IfOk result (λ e. e ≡ elimination.eliminated count (seen_table table)) }
{
    let mut table = table;
    let mut left = count;
    while left > 0 {
        left -= 1;
        match without_next(alloc, table)? {
            Next::Ends(end) => return Ok(end),
            Next::GoesOn(next) => table = next,
        }
    }
    Ok(Elim::Consistent)
}

/// Takes one variable after the other away from forms that are to be at least 0.
pub fn eliminate(alloc: Global, forms: Vec<Form>) -> Result<Elim, NoMemory>
    ensures value { IfOk result (λ e. e ≡ elimination.elimination (map linear_form forms.items)) }
{
    let first = at_first(alloc, forms);
    match ended(given(alloc, first)?) {
        Next::Ends(end) => Ok(end),
        Next::GoesOn(table) => {
            let found = variables(alloc, table.all.as_slice(), table.standing.as_slice())?;
            eliminated(alloc, number(&found), table)
        }
    }
}
