//! The words, read by `clap` and tested by the table of commands.
ghost use Rattle.std.specs.Prelude.{◌≡◌, ◌≤◌, IfOk, IfSome, MatchResult, None, Some, codes, option_map};
ghost use Rattle.clap.specs.Words.{found_of, kind_of as kind_in, rows_of, subcommand_rows_of};
ghost use Rattle.wy_top_words.specs.CommandLine.{command_of, order_of};
ghost use Rattle.wy_top_words.specs.Plain.{asked_in, order_in, words_in};
ghost use Rattle.wy_top_words.specs.Rows.{asked_by, asked_with, is_flagged};

use crate::command::{Given, Kind, Ordered, kind_of, order};
use crate::declared::command_line;
use clap::error::ErrorKind;
use clap::{ArgMatches, Error};
use std::alloc::Global;

/// Why there is no command.
#[derive(Clone, Copy, Debug, PartialEq, Eq)]
pub enum WordsFault {
    /// The words ask for none of the commands.
    Refused,
    /// Memory ran out.
    NoMemory,
}

/// What the words behind the program's own name ask for, and by how many workers. They are refused exactly where they ask for none of the
/// commands. The time is linear in the words.
pub fn read_words<'a>(alloc: Global, words: &'a [String]) -> Result<Ordered<'a>, WordsFault>
    ensures value { MatchResult result (λ o. order_of (words_in words.entry.now) ≡ Some (order_in o))
        (λ e. e ≡ WordsFault.Refused → order_of (words_in words.entry.now) ≡ None) }
    ensures command { MatchResult result (λ o. command_of (words_in words.entry.now) ≡ Some (asked_in o.words))
        (λ e. e ≡ WordsFault.Refused → command_of (words_in words.entry.now) ≡ None) }
    ensures workers { IfOk result (λ o. (1 ≤ o.workers) × (o.workers ≤ 64)) }
{
    let line = match command_line(alloc) {
        Ok(line) => line,
        Err(_) => return Err(WordsFault::NoMemory),
    };
    match line.try_get_matches_from(words) {
        Ok(matches) => match asked(&matches) {
            Some(ordered) => Ok(ordered),
            None => Err(WordsFault::Refused),
        },
        Err(error) => Err(fault(&error)),
    }
}

// What a parse of the words comes to.
fn asked<'a>(matches: &ArgMatches<'a>) -> Option<Ordered<'a>>
    ensures value { option_map order_in result ≡ asked_by (subcommand_rows_of matches.now) }
    ensures within { IfSome result (λ o. (1 ≤ o.workers) × (o.workers ≤ 64)) }
{
    match matches.subcommand() {
        Some((name, own)) => match kind_of(name) {
            Some(kind) => asked_of(kind, own),
            None => None,
        },
        None => None,
    }
}

// What the command asks for with what was given behind it. Each takes an operand.
fn asked_of<'a>(kind: Kind, own: &ArgMatches<'a>) -> Option<Ordered<'a>>
    ensures value { option_map order_in result ≡ asked_with kind (rows_of (found_of own.now)) }
    ensures within { IfSome result (λ o. (1 ≤ o.workers) × (o.workers ≤ 64)) }
{
    match own.get_strs("operands") {
        Some(operands) => order(
            kind,
            Given {
                operands,
                budget: own.get_str("budget"),
                steps: own.get_str("steps"),
                workers: own.get_str("workers"),
                stats: has_stats(own),
            },
        ),
        None => None,
    }
}

// Whether `--stats` was given.
fn has_stats(own: &ArgMatches<'_>) -> bool
    ensures value { result ≡ is_flagged (rows_of (found_of own.now)) }
{
    match own.get_str("stats") {
        Some(text) => text == "true",
        None => false,
    }
}

fn fault(error: &Error) -> WordsFault
    ensures memory { kind_in error.now ≡ ErrorKind.OutOfMemory → result ≡ WordsFault.NoMemory }
{
    match error.kind() {
        ErrorKind::OutOfMemory => WordsFault::NoMemory,
        _ => WordsFault::Refused,
    }
}
