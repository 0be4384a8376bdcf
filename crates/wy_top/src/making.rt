//! The command `big`: a large program is made, accepted without certificates and run, and one line is written.
ghost use Rattle.std.specs.Prelude.{◌≡◌, ◌≤◌, ◌<◌, ◌^◌, ℕ, List, length, IfOk, IfSome};
ghost use Rattle.std.specs.String.{string_bytes};
ghost use Rattle.wy_top.specs.Kept.{IsWhole, acceptance_in};
ghost use Rattle.wy_top_probe.specs.wy_top_answers.Steps.{Answers, During, Gives, Setting};
ghost use Rattle.wy_top_probe.specs.wy_mach_run.Running.{CanRun};
ghost use Rattle.wy_top.specs.Going.{AcceptedRunsGo};
ghost use Rattle.wy_top.specs.Large as spec;

use crate::accepting::{Accepted, accept_source};
use crate::launching::{Launch, launched};
use std::alloc::{AllocError, Global};
use std::thread::Threads;
use wy_data::Bytes;
use wy_port::{Files, MemSink};
use wy_top_big::{argument_text, entry, source_of};
use wy_top_probe::wy_top_answers::report::steps_spent;
use wy_top_probe::wy_top_answers::{Answer, SOURCE_LIMIT, no_memory, refusal};
use wy_top_probe::{RunEnd, run_start};

/// The most bytes that the run writes: those of a number and a line end.
const ROOM: usize = 64;

// The source, which is no longer than a file may be.
fn made(alloc: Global, functions: u32, seed: u32) -> Result<Bytes, Answer>
    ensures gives { (s : Setting) → Gives s (spec.makes functions seed) result }
    ensures within { IfOk result (λ b. length b < 2 ^ 32) }
{
    let source = match source_of(alloc, functions, seed) {
        Ok(source) => source,
        Err(_) => return Err(no_memory(alloc)),
    };
    if source.len() as u64 > SOURCE_LIMIT {
        return Err(refusal(alloc, 10, String::from_str(alloc, "wy: big: too long\n")));
    }
    Ok(Bytes::new(source))
}

// The front of the line.
fn head(alloc: Global, functions: u32, conditions: u32) -> Result<String, AllocError>
    ensures value { IfOk result (λ s. string_bytes s ≡ spec.head functions conditions) }
{
    format!(in alloc; "functions {functions} conditions {conditions} result ")
}

// The line, where the run wrote this.
fn line(alloc: Global, functions: u32, conditions: u32, wrote: &[u8]) -> Answer
    ensures value { spec.IsLine functions conditions wrote.now result }
{
    let head = match head(alloc, functions, conditions) {
        Ok(head) => head,
        Err(_) => return no_memory(alloc),
    };
    let mut text = head.into_bytes();
    match text.extend_from_slice(wrote) {
        Ok(()) => Answer {
            status: 0,
            out: Bytes::new(text),
            err: Bytes::new(Vec::new(alloc)),
        },
        Err(_) => no_memory(alloc),
    }
}

// The answer of the run.
fn finished(alloc: Global, functions: u32, conditions: u32, steps: u64, launch: &Launch) -> Answer
    requires { CanRun launch.now.start }
    ensures answers { (s : Setting) → Answers s (spec.finishes functions conditions steps launch.now) result }
{
    let mut out = match MemSink::new(alloc, ROOM, ROOM, Vec::new(alloc)) {
        Ok(out) => out,
        Err(_) => return no_memory(alloc),
    };
    match run_start(alloc, &launch.start, steps, &mut out) {
        Ok(RunEnd::Done { .. }) => line(alloc, functions, conditions, out.bytes()),
        Ok(RunEnd::Spent) => refusal(alloc, 8, String::from_str(alloc, steps_spent())),
        Ok(RunEnd::OutFault) => no_memory(alloc),
        Err(_) => no_memory(alloc),
    }
}

// The answer of the run of the accepted program.
fn run_large(alloc: Global, functions: u32, seed: u32, steps: u64, accepted: Accepted) -> Answer
    requires whole { IsWhole accepted }
    requires goes { AcceptedRunsGo }
    ensures answers { (s : Setting) → Answers s (spec.runs functions seed steps (acceptance_in accepted)) result }
{
    let text = match argument_text(alloc, seed) {
        Ok(text) => text,
        Err(_) => return no_memory(alloc),
    };
    let count = accepted.count;
    match launched(alloc, accepted, entry(), text.as_str()) {
        Ok(launch) => finished(alloc, functions, count, steps, &launch),
        Err(answer) => answer,
    }
}

// The answer where this is the source.
fn accept_large<R: Threads + Sync, F: Files>(
    rt: &R,
    alloc: Global,
    functions: u32,
    seed: u32,
    budget: u64,
    workers: u32,
    steps: u64,
    source: &[u8],
    files: &mut F,
) -> Answer
    requires within { length source.now < 2 ^ 32 }
    requires goes { AcceptedRunsGo }
    requires workers { (1 ≤ workers) × (workers ≤ 64) }
    ensures answers { During (F.told files.old) (F.load_faults files.old) (F.load_faults files.new) (F.misses files.old) (F.misses files.new) (λ s. Answers s (spec.accepts_and_runs s functions seed budget steps source.now) result) }
    ensures kept { (other : List ℕ) → F.told files.new other ≡ F.told files.old other }
    ensures load_count { (other : List ℕ) → F.load_faults files.old other ≤ F.load_faults files.new other }
    ensures miss_count { (other : List ℕ) → F.misses files.old other ≤ F.misses files.new other }
    ensures save_count { F.save_faults files.new ≡ F.save_faults files.old }
{
    match accept_source(rt, alloc, "big", "none", source, budget, workers, files) {
        Ok(accepted) => run_large(alloc, functions, seed, steps, accepted),
        Err(answer) => answer,
    }
}

// The answer with these numbers.
fn large_of<R: Threads + Sync, F: Files>(
    rt: &R,
    alloc: Global,
    functions: u32,
    seed: u32,
    budget: u64,
    workers: u32,
    steps: u64,
    files: &mut F,
) -> Answer
    requires goes { AcceptedRunsGo }
    requires workers { (1 ≤ workers) × (workers ≤ 64) }
    ensures answers { During (F.told files.old) (F.load_faults files.old) (F.load_faults files.new) (F.misses files.old) (F.misses files.new) (λ s. Answers s (spec.big_steps s functions seed budget steps) result) }
    ensures kept { (other : List ℕ) → F.told files.new other ≡ F.told files.old other }
    ensures load_count { (other : List ℕ) → F.load_faults files.old other ≤ F.load_faults files.new other }
    ensures miss_count { (other : List ℕ) → F.misses files.old other ≤ F.misses files.new other }
    ensures save_count { F.save_faults files.new ≡ F.save_faults files.old }
{
    match made(alloc, functions, seed) {
        Ok(source) => accept_large(
            rt,
            alloc,
            functions,
            seed,
            budget,
            workers,
            steps,
            source.as_slice(),
            files,
        ),
        Err(answer) => answer,
    }
}

// The number, where it has 32 bits. The words of a command allow no others.
fn narrowed(number: u64) -> Option<u32>
    ensures value { IfSome result (λ n. n ≡ number) }
{
    match u32::try_from(number) {
        Ok(number) => Some(number),
        Err(_) => None,
    }
}

/// The answer of `big`: a line with the number of functions, that of conditions, and what the last function gives; or why
/// there is none.
pub fn large<R: Threads + Sync, F: Files>(
    rt: &R,
    alloc: Global,
    functions: u64,
    seed: u64,
    budget: u64,
    workers: u32,
    steps: u64,
    files: &mut F,
) -> Answer
    requires goes { AcceptedRunsGo }
    requires workers { (1 ≤ workers) × (workers ≤ 64) }
    ensures answers { During (F.told files.old) (F.load_faults files.old) (F.load_faults files.new) (F.misses files.old) (F.misses files.new) (λ s. Answers s (spec.big_steps s functions seed budget steps) result) }
    ensures kept { (other : List ℕ) → F.told files.new other ≡ F.told files.old other }
    ensures load_count { (other : List ℕ) → F.load_faults files.old other ≤ F.load_faults files.new other }
    ensures miss_count { (other : List ℕ) → F.misses files.old other ≤ F.misses files.new other }
    ensures save_count { F.save_faults files.new ≡ F.save_faults files.old }
{
    let functions = match narrowed(functions) {
        Some(functions) => functions,
        None => return no_memory(alloc),
    };
    let seed = match narrowed(seed) {
        Some(seed) => seed,
        None => return no_memory(alloc),
    };
    large_of(rt, alloc, functions, seed, budget, workers, steps, files)
}
