//! What the words of the command `again` ask for.
ghost use Rattle.std.specs.Prelude.{◌≡◌, option_map};
ghost use Rattle.wy_top_words.specs.CommandLine.{again_asked};
ghost use Rattle.wy_top_words.specs.Plain.{asked_in, given_in};

use crate::command::{Given, Words, two};
use crate::number::budget_of;

/// The source and the cache that are asked for, with the budget of the searches.
pub fn again<'a, 'b>(given: Given<'a, 'b>) -> Option<Words<'a>>
    ensures value { option_map asked_in result ≡ again_asked (given_in given.entry) }
{
    if given.steps.is_some() || given.stats {
        return None;
    }
    let (source, cache) = two(given.operands)?;
    let budget = budget_of(given.budget)?;
    Some(Words::Again {
        source,
        cache,
        budget,
    })
}
