//! What the command `run` does before the machine: acceptance, and what the run starts with.
ghost use Rattle.std.specs.Prelude.{◌≡◌, ◌≤◌, ◌++◌, ℕ, List, IfOk};
ghost use Rattle.std.specs.String.{string_bytes};
ghost use Rattle.wy_top.specs.Kept.{IsWhole, acceptance_in};
ghost use Rattle.wy_top_probe.specs.wy_top_answers.Calls.{AnswersFault};
ghost use Rattle.wy_top_probe.specs.wy_top_answers.Steps.{During, Gives, Setting};
ghost use Rattle.wy_top_probe.specs.wy_mach_run.Running.{CanRun};
ghost use Rattle.wy_top.specs.Going.{AcceptedRunsGo};
ghost use Rattle.wy_top.specs.Launching as spec;

use crate::accepting::{Accepted, accept_file};
use std::alloc::{AllocError, Global};
use std::thread::Threads;
use wy_data::Bytes;
use wy_port::Files;
use wy_top_probe::wy_top_answers::report::{
    bad_argument, no_entry, other_count, other_type, requires_fails, turns_spent,
};
use wy_top_probe::wy_top_answers::{Answer, no_memory, refusal_behind};
use wy_top_probe::{Start, StartFault, start};
use wy_value::ValueFault;

/// What a run starts with, and the lines that are written before it.
#[derive(Drop)]
pub struct Launch {
    /// A line for each certificate that was supplied and isn't valid.
    pub lines: Bytes,
    pub start: Start,
}

// The line for a fault of the argument text. Want of memory has none.
fn text_line(alloc: Global, fault: ValueFault) -> Result<String, AllocError>
    ensures value { IfOk result (λ s. string_bytes s ≡ spec.text_line fault) }
{
    match fault {
        ValueFault::Shape(at) => bad_argument(alloc, "Shape", at),
        ValueFault::Range(at) => bad_argument(alloc, "Range", at),
        ValueFault::Deep(at) => bad_argument(alloc, "Deep", at),
        ValueFault::NoMemory => Ok(String::new(alloc)),
    }
}

// The line of why there is no run. Want of memory has none.
fn fault_line(alloc: Global, name: &str, fault: StartFault) -> Result<String, AllocError>
    ensures value { IfOk result (λ s. string_bytes s ≡ spec.fault_line name.now fault) }
{
    match fault {
        StartFault::NoEntry => no_entry(alloc, name),
        StartFault::Argument(fault) => text_line(alloc, fault),
        StartFault::OtherCount(count) => other_count(alloc, name, count),
        StartFault::OtherType(number) => other_type(alloc, number),
        StartFault::RequiresFails(number) => requires_fails(alloc, number),
        StartFault::TurnsSpent => String::from_str(alloc, turns_spent()),
        StartFault::NoMemory => Ok(String::new(alloc)),
    }
}

// The status where there is no run.
fn fault_status(fault: StartFault) -> u8
    ensures value { result ≡ spec.fault_status fault }
{
    match fault {
        StartFault::TurnsSpent => 11,
        StartFault::NoMemory => 9,
        _ => 7,
    }
}

// Whether memory ran out.
fn lacks_memory(fault: StartFault) -> bool
    ensures value { result ≡ spec.lacks_memory fault }
{
    matches!(fault, StartFault::NoMemory)
}

// The answer where there is no run: these lines, and that of why.
fn fault_answer(alloc: Global, lines: Bytes, name: &str, fault: StartFault) -> Answer
    ensures value { AnswersFault (spec.lacks_memory fault) (spec.fault_status fault) (lines ++ spec.fault_line name.now fault) result }
{
    if lacks_memory(fault) {
        return no_memory(alloc);
    }
    refusal_behind(
        alloc,
        fault_status(fault),
        lines,
        fault_line(alloc, name, fault),
    )
}

/// What the run of an accepted program starts with, or the answer of why it doesn't start. What starts never lacks a step.
pub fn launched(
    alloc: Global,
    accepted: Accepted,
    name: &str,
    arguments: &str,
) -> Result<Launch, Answer>
    requires whole { IsWhole accepted }
    requires goes { AcceptedRunsGo }
    ensures gives { (s : Setting) → Gives s (spec.starts name.now arguments.now (acceptance_in accepted)) result }
    ensures can { IfOk result (λ l. CanRun l.start) }
{
    match start(alloc, &accepted.typed, name, arguments.as_bytes()) {
        Ok(start) => Ok(Launch {
            lines: accepted.lines,
            start,
        }),
        Err(fault) => Err(fault_answer(alloc, accepted.lines, name, fault)),
    }
}

/// What the run of the source in a file starts with, or the answer of why it doesn't start.
pub fn launch_file<R: Threads + Sync, F: Files>(
    rt: &R,
    alloc: Global,
    source: &str,
    cert: &str,
    name: &str,
    arguments: &str,
    budget: u64,
    workers: u32,
    files: &mut F,
) -> Result<Launch, Answer>
    requires goes { AcceptedRunsGo }
    requires workers { (1 ≤ workers) × (workers ≤ 64) }
    ensures gives { During (F.told files.old) (F.load_faults files.old) (F.load_faults files.new) (F.misses files.old) (F.misses files.new) (λ s. Gives s (spec.run_steps s source.now cert.now name.now arguments.now budget) result) }
    ensures can { IfOk result (λ l. CanRun l.start) }
    ensures kept { (other : List ℕ) → F.told files.new other ≡ F.told files.old other }
    ensures load_count { (other : List ℕ) → F.load_faults files.old other ≤ F.load_faults files.new other }
    ensures miss_count { (other : List ℕ) → F.misses files.old other ≤ F.misses files.new other }
    ensures save_count { F.save_faults files.new ≡ F.save_faults files.old }
{
    match accept_file(rt, alloc, source, cert, budget, workers, files) {
        Ok(accepted) => launched(alloc, accepted, name, arguments),
        Err(answer) => Err(answer),
    }
}
