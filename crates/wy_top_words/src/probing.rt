//! What the words of the command `probe` ask for.
ghost use Rattle.std.specs.Prelude.{◌≡◌, option_map};
ghost use Rattle.wy_top_words.specs.CommandLine.{probe_asked};
ghost use Rattle.wy_top_words.specs.Plain.{asked_in, given_in};

use crate::command::{Given, Words, four};
use crate::number::number_within;

/// The probe that is asked for: a source, a name, from 1 to 1,000 tuples and from 0 to 2,000 ticks, without options.
pub fn probe<'a, 'b>(given: Given<'a, 'b>) -> Option<Words<'a>>
    ensures value { option_map asked_in result ≡ probe_asked (given_in given.entry) }
{
    if given.budget.is_some() || given.steps.is_some() || given.stats {
        return None;
    }
    let (source, name, tuples, ticks) = four(given.operands)?;
    let tuples = number_within(tuples, 1, 1000)?;
    let ticks = number_within(ticks, 0, 2000)?;
    Some(Words::Probe {
        source,
        name,
        tuples,
        ticks,
    })
}
