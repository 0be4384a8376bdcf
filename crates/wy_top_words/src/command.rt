//! What the words of a command line ask for.
ghost use Rattle.std.specs.Prelude.{◌≡◌, ◌≤◌, IfSome, option_map, map};
ghost use Rattle.wy_top_words.specs.CommandLine.{asked, big_asked, check_asked, kind_named, one_of, other_kind_named, ordered, prove_asked, run_asked, source_of, two_of, four_of, workers_for};
ghost use Rattle.wy_top_words.specs.Plain.{asked_in, given_in, order_in, text_in, texts_in};

use crate::number::{budget_of, number_within, steps_of, workers_of};
use crate::probing::probe;
use crate::repeating::again;

/// A command, with the texts of its operands and the numbers of its options.
#[derive(Clone, Copy, Debug, PartialEq, Eq)]
pub enum Words<'a> {
    /// The verdicts of all conditions of the program in the file `source`, with the certificates of a file, or of none
    /// where the word is `none`.
    Check {
        source: &'a str,
        certificates: &'a str,
        budget: u64,
    },
    /// A run of the function or method `name` on the values that `arguments` writes.
    Run {
        source: &'a str,
        certificates: &'a str,
        name: &'a str,
        arguments: &'a str,
        budget: u64,
        steps: u64,
        stats: bool,
    },
    /// A search of all conditions, whose certificates are saved as `output`.
    Prove {
        source: &'a str,
        output: &'a str,
        budget: u64,
    },
    /// The text of all conditions.
    Conds {
        source: &'a str,
    },
    /// The text of the program.
    Fmt {
        source: &'a str,
    },
    /// The text of the program's code.
    Dis {
        source: &'a str,
    },
    /// A program of `functions` functions that is made from the number `seed`, accepted and run.
    Big {
        functions: u64,
        seed: u64,
        budget: u64,
        steps: u64,
    },
    /// A probe for faults of the function or method `name`, over so many tuples of arguments, each with so many ticks.
    Probe {
        source: &'a str,
        name: &'a str,
        tuples: u64,
        ticks: u64,
    },
    /// The verdicts of all conditions of the program in the file `source`, with what the file `cache` shows, which is saved anew.
    Again {
        source: &'a str,
        cache: &'a str,
        budget: u64,
    },
}

/// A command, and how many workers judge the conditions of its program: from 1 to 64, which changes nothing of what it comes to. It is 1
/// for a command that judges none.
#[derive(Clone, Copy, Debug, PartialEq, Eq)]
pub struct Ordered<'a> {
    pub words: Words<'a>,
    pub workers: u64,
}

/// Which command it is.
#[derive(Clone, Copy, Debug)]
pub enum Kind {
    Check,
    Run,
    Prove,
    Conds,
    Fmt,
    Dis,
    Big,
    Probe,
    Again,
}

/// The command with this name.
pub fn kind_of(name: &str) -> Option<Kind>
    ensures value { result ≡ kind_named name.now }
{
    if name == "check" {
        Some(Kind::Check)
    } else if name == "run" {
        Some(Kind::Run)
    } else if name == "prove" {
        Some(Kind::Prove)
    } else {
        other_kind(name)
    }
}

fn other_kind(name: &str) -> Option<Kind>
    ensures value { result ≡ other_kind_named name.now }
{
    if name == "conds" {
        Some(Kind::Conds)
    } else if name == "fmt" {
        Some(Kind::Fmt)
    } else if name == "dis" {
        Some(Kind::Dis)
    } else if name == "big" {
        Some(Kind::Big)
    } else if name == "probe" {
        Some(Kind::Probe)
    } else if name == "again" {
        Some(Kind::Again)
    } else {
        None
    }
}

/// What stands behind the command's name.
#[derive(Clone, Copy, Debug)]
pub struct Given<'a, 'b> {
    pub operands: &'b [&'a str],
    pub budget: Option<&'a str>,
    pub steps: Option<&'a str>,
    pub workers: Option<&'a str>,
    pub stats: bool,
}

/// What the command asks for with these operands and options, if it takes them.
pub fn order<'a, 'b>(kind: Kind, given: Given<'a, 'b>) -> Option<Ordered<'a>>
    ensures value { option_map order_in result ≡ ordered kind (given_in given.entry) }
    ensures within { IfSome result (λ o. (1 ≤ o.workers) × (o.workers ≤ 64)) }
{
    let words = meaning(kind, given)?;
    let workers = workers(kind, given.workers)?;
    Some(Ordered { words, workers })
}

// The number of workers, for a command that takes it.
fn workers(kind: Kind, text: Option<&str>) -> Option<u64>
    ensures value { result ≡ workers_for kind (option_map text_in text.entry) }
    ensures within { IfSome result (λ n. (1 ≤ n) × (n ≤ 64)) }
{
    match kind {
        Kind::Check | Kind::Run | Kind::Prove | Kind::Big | Kind::Again => workers_of(text),
        Kind::Conds | Kind::Fmt | Kind::Dis | Kind::Probe => match text {
            None => Some(1),
            Some(_) => None,
        },
    }
}

// What it asks for, whatever number of workers is given.
fn meaning<'a, 'b>(kind: Kind, given: Given<'a, 'b>) -> Option<Words<'a>>
    ensures value { option_map asked_in result ≡ asked kind (given_in given.entry) }
{
    match kind {
        Kind::Check => check(given),
        Kind::Run => run(given),
        Kind::Prove => prove(given),
        Kind::Conds => match source_alone(given) {
            Some(source) => Some(Words::Conds { source }),
            None => None,
        },
        Kind::Fmt => match source_alone(given) {
            Some(source) => Some(Words::Fmt { source }),
            None => None,
        },
        Kind::Dis => match source_alone(given) {
            Some(source) => Some(Words::Dis { source }),
            None => None,
        },
        Kind::Big => big(given),
        Kind::Probe => probe(given),
        Kind::Again => again(given),
    }
}

fn check<'a, 'b>(given: Given<'a, 'b>) -> Option<Words<'a>>
    ensures value { option_map asked_in result ≡ check_asked (given_in given.entry) }
{
    if given.steps.is_some() || given.stats {
        return None;
    }
    let (source, certificates) = two(given.operands)?;
    let budget = budget_of(given.budget)?;
    Some(Words::Check {
        source,
        certificates,
        budget,
    })
}

fn run<'a, 'b>(given: Given<'a, 'b>) -> Option<Words<'a>>
    ensures value { option_map asked_in result ≡ run_asked (given_in given.entry) }
{
    let (source, certificates, name, arguments) = four(given.operands)?;
    let budget = budget_of(given.budget)?;
    let steps = steps_of(given.steps)?;
    Some(Words::Run {
        source,
        certificates,
        name,
        arguments,
        budget,
        steps,
        stats: given.stats,
    })
}

fn prove<'a, 'b>(given: Given<'a, 'b>) -> Option<Words<'a>>
    ensures value { option_map asked_in result ≡ prove_asked (given_in given.entry) }
{
    if given.steps.is_some() || given.stats {
        return None;
    }
    let (source, output) = two(given.operands)?;
    let budget = budget_of(given.budget)?;
    Some(Words::Prove {
        source,
        output,
        budget,
    })
}

fn big<'a, 'b>(given: Given<'a, 'b>) -> Option<Words<'a>>
    ensures value { option_map asked_in result ≡ big_asked (given_in given.entry) }
{
    if given.stats {
        return None;
    }
    let (functions, seed) = two(given.operands)?;
    let functions = number_within(functions, 1, 500)?;
    let seed = number_within(seed, 0, 4_294_967_295)?;
    let budget = budget_of(given.budget)?;
    let steps = steps_of(given.steps)?;
    Some(Words::Big {
        functions,
        seed,
        budget,
        steps,
    })
}

// The source file, where nothing else is given.
fn source_alone<'a, 'b>(given: Given<'a, 'b>) -> Option<&'a str>
    ensures value { option_map text_in result ≡ source_of (given_in given.entry) }
{
    if given.budget.is_some() || given.steps.is_some() || given.stats {
        return None;
    }
    one(given.operands)
}

fn one<'a>(operands: &[&'a str]) -> Option<&'a str>
    ensures value { option_map text_in result ≡ one_of (texts_in operands.now) }
{
    let [only] = operands else {
        return None;
    };
    Some(*only)
}

pub fn two<'a>(operands: &[&'a str]) -> Option<(&'a str, &'a str)>
    ensures value { option_map (λ p. (p.0.now, p.1.now)) result ≡ two_of (texts_in operands.now) }
{
    let [first, second] = operands else {
        return None;
    };
    Some((*first, *second))
}

pub fn four<'a>(operands: &[&'a str]) -> Option<(&'a str, &'a str, &'a str, &'a str)>
    ensures value { option_map (λ p. (p.0.now, p.1.now, p.2.now, p.3.now)) result ≡ four_of (texts_in operands.now) }
{
    let [first, second, third, fourth] = operands else {
        return None;
    };
    Some((*first, *second, *third, *fourth))
}
