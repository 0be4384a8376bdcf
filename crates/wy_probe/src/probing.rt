//! The probe: from a typed program to arguments on which it faults.
ghost use Rattle.std.specs.Prelude.{◌≡◌, ◌≤◌, ◌<◌, suc, IfOk, IfSome, length, map, option_map};
ghost use Rattle.wy_core.specs.CoreSeen.{seen_core};
ghost use Rattle.wy_flow_spec.specs.typing.TypedPrograms.{core_of};
ghost use Rattle.wy_value.specs.Seen.{seen};
ghost use Rattle.wy_probe.specs.Comes.{probe_of};
ghost use Rattle.wy_probe.specs.Tables.{table_of};
ghost use Rattle.wy_probe.specs.Tallies.{with_one};
ghost use Rattle.wy_probe.specs.Trials as spec;
ghost use Rattle.wy_probe.specs.Trials.{Faultless, Finds, FindsFirst, IsRoutine, seen_end};
ghost use Rattle.wy_probe.specs.Tuples.{Fit, first_one};

use crate::parameters::lists_of;
use crate::trials::{Trial, tried};
use crate::tuples::{first_tuple, has_empty, next_tuple_of};
use std::alloc::Global;
use wy_core::Core;
use wy_eval_exprs::routine_at;
use wy_flow_spec::typing::Typed;
use wy_items::{Items, NoMemory};
use wy_term::CondKind;
use wy_value::Value;

/// The most parameters of a function or method that is probed. A source has far fewer.
const MOST_PARAMETERS: usize = 2_147_483_648;

/// What a probe finds.
#[derive(Drop)]
pub enum ProbeEnd {
    /// The first tuple that faults: its number, from 1, the arguments, and the kind and the place of the fault, a byte
    /// offset.
    Found {
        number: u32,
        args: Vec<Value>,
        kind: CondKind,
        at: u32,
    },
    /// None of the tuples faults: how many were tried, for how many the precondition is met within the turns, and how many
    /// are undecided.
    None {
        tried: u32,
        met: u32,
        undecided: u32,
    },
}

/// Tries the first `n` tuples of arguments, at most 1,000, of the declared function or method with this number, each with
/// so many ticks, at most 2,000, up to the first on which the program faults.
///
/// A tuple takes one value of each parameter from the list of its type (`specs/Candidates`), in the order of `specs/Tuples`:
/// without parameters there is one tuple. It is undecided where the test of the precondition, or where it is met the
/// contracts of the run, take more than 1,000,000 visits of types and turns of quantifiers; such a tuple is never told as a
/// fault. Whether the conditions of the program are true isn't asked.
///
/// Beside the lists, of at most 64 values each, one tuple and its run are held at a time. It takes the time of the tests and
/// runs, and at first that of the lists, each of which is made once for each depth.
pub fn probe(
    alloc: Global,
    typed: &Typed,
    entry: u32,
    n: u32,
    ticks: u32,
) -> Result<ProbeEnd, NoMemory>
    requires routine { IsRoutine (core_of typed.now) entry }
    requires tuples { n ≤ 1000 }
    requires ticks { ticks ≤ 2000 }
    ensures finds { IfOk result (λ end. FindsFirst (probe_of (core_of typed.now) entry ticks) n (seen_end end)) }
{
    let core = typed.core();
    let routine = match routine_at(core.decls.as_slice(), entry) {
        Some(routine) => routine,
        None => unreachable!(),
    };
    let lists = lists_of(alloc, typed.names(), routine.params.as_slice())?;
    probe_lists(alloc, core, entry, lists.as_slice(), n, ticks)
}

// Tries the tuples of the lists one after another.
fn probe_lists(
    alloc: Global,
    core: &Core,
    entry: u32,
    lists: &[Items<Value>],
    n: u32,
    ticks: u32,
) -> Result<ProbeEnd, NoMemory>
    requires tuples { n ≤ 1000 }
    requires ticks { ticks ≤ 2000 }
    ensures finds { IfOk result (λ end. Finds (probe_of (seen_core core.now) entry ticks) (spec.first_of (table_of lists.now) n) (seen_end end)) }
{
    if lists.len() > MOST_PARAMETERS {
        return Err(NoMemory);
    }
    let lengths = lengths_of(alloc, lists)?;
    let mut next = first_of(alloc, lengths.as_slice())?;
    let mut tally = Tally {
        tried: 0,
        met: 0,
        undecided: 0,
    };
    for number in 0..n {
        let Some(tuple) = next else {
            return Ok(none_of(tally));
        };
        let args = picked(alloc, lists, tuple.as_slice())?;
        match tried(alloc, core, entry, args.as_slice(), ticks)? {
            Trial::Faults(kind, at) => {
                return Ok(ProbeEnd::Found {
                    number: number + 1,
                    args,
                    kind,
                    at,
                });
            }
            Trial::Passes { met, undecided } => {
                tally = counted(tally, met, undecided);
            }
        }
        next = next_tuple_of(alloc, lengths.as_slice(), tuple.as_slice())?;
    }
    Ok(none_of(tally))
}

// The length of each list. None has more than 2^32 - 1 values.
fn lengths_of(alloc: Global, lists: &[Items<Value>]) -> Result<Vec<u32>, NoMemory>
    ensures value { IfOk result (λ lengths. lengths.items ≡ map length (table_of lists.now)) }
{
    let mut lengths = Vec::new(alloc);
    for list in lists {
        let Ok(length) = u32::try_from(list.len()) else {
            return Err(NoMemory);
        };
        lengths.push(length)?;
    }
    Ok(lengths)
}

// The first tuple, where none of the lists is empty.
fn first_of(alloc: Global, lengths: &[u32]) -> Result<Option<Vec<u32>>, NoMemory>
    ensures value { IfOk result (λ first. option_map (λ v. v.items) first ≡ first_one lengths.now) }
    ensures fit { IfOk result (λ first. IfSome first (λ v. Fit lengths.now v.items)) }
{
    if has_empty(lengths) {
        return Ok(None);
    }
    Ok(Some(first_tuple(alloc, lengths)?))
}

// The values at the positions, copied.
fn picked(alloc: Global, lists: &[Items<Value>], tuple: &[u32]) -> Result<Vec<Value>, NoMemory>
    requires fit { Fit (map length (table_of lists.now)) tuple.now }
    ensures value { IfOk result (λ args. map seen args.items ≡ spec.picked (table_of lists.now) tuple.now) }
{
    let mut args = Vec::new(alloc);
    for place in 0..lists.len() {
        let list = lists[place].as_slice();
        let value = &list[tuple[place] as usize];
        args.push(value.copy(alloc)?)?;
    }
    Ok(args)
}

/// How many tuples were tried, are met, and are undecided.
#[derive(Clone, Copy, Debug)]
pub struct Tally {
    pub tried: u32,
    pub met: u32,
    pub undecided: u32,
}

// The tally with one tuple more.
fn counted(tally: Tally, met: bool, undecided: bool) -> Tally
    requires tried { tally.tried < 1000 }
    requires met { tally.met ≤ tally.tried }
    requires undecided { tally.undecided ≤ tally.tried }
    ensures tried { result.tried ≡ suc tally.tried }
    ensures met { result.met ≡ with_one met tally.met }
    ensures undecided { result.undecided ≡ with_one undecided tally.undecided }
{
    let mut tally = tally;
    tally.tried += 1;
    if met {
        tally.met += 1;
    }
    if undecided {
        tally.undecided += 1;
    }
    tally
}

// What is found where none of the tuples faults.
fn none_of(tally: Tally) -> ProbeEnd
    ensures value { seen_end result ≡ Faultless tally.tried tally.met tally.undecided }
{
    ProbeEnd::None {
        tried: tally.tried,
        met: tally.met,
        undecided: tally.undecided,
    }
}
