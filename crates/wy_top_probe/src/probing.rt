//! The command `probe`: arguments on which the program of a source faults.
ghost use Rattle.std.specs.Prelude.{◌≡◌, ◌≤◌, ◌<◌, ◌^◌, ◌⊎◌, ℕ, List, length, IfOk};
ghost use Rattle.wy_mach_run.specs.wy_flow_spec.typing.TypedPrograms.{core_of, flow_of};
ghost use Rattle.wy_probe.specs.Trials.{IsRoutine, seen_end};
ghost use Rattle.wy_link_load.specs.wy_top_answers.Answers as answers;
ghost use Rattle.wy_link_load.specs.wy_top_answers.Steps.{Answers, During, Gives, Setting, came};
ghost use Rattle.wy_top_probe.specs.Probing as spec;

use crate::probe_lines::{fault_line, none_line};
use crate::texts::fault_answer;
use std::alloc::Global;
use wy_data::Bytes;
use wy_link_load::load_alone;
use wy_link_load::wy_top_answers::report::no_entry;
use wy_link_load::wy_top_answers::{Answer, no_memory, refusal};
use wy_mach_run::wy_flow_spec::typing::Typed;
use wy_mach_run::{StartFault, entry_of};
use wy_port::Files;
use wy_probe::{ProbeEnd, probe};
use wy_top_source::read_program;

/// The status of a fault that was found.
const FAULT: u8 = 12;

/// The most tuples, and the most ticks of each: words never ask for more.
const MOST_TUPLES: u64 = 1_000;

const MOST_TICKS: u64 = 2_000;

// The typed and assigned program of the source, or the answer with the line of the first fault.
fn typed_in(alloc: Global, name: &str, bytes: &[u8]) -> Result<Typed, Answer>
    requires { length bytes.now < 2 ^ 32 }
    ensures gives { (s : Setting) → Gives s (spec.reads name.now bytes.now) (came (λ t. spec.checked (core_of t) (flow_of t)) result) }
{
    match read_program(alloc, bytes) {
        Ok(typed) => Ok(typed),
        Err(fault) => Err(fault_answer(alloc, name, bytes, fault)),
    }
}

// The number of the function or method of this name, or the answer that there is none.
fn entry_in(alloc: Global, typed: &Typed, name: &str) -> Result<u32, Answer>
    ensures gives { (s : Setting) → Gives s (spec.enters (core_of typed.now) name.now) result }
    ensures routine { IfOk result (IsRoutine (core_of typed.now)) }
{
    let core = typed.core();
    match entry_of(core.decls.as_slice(), name) {
        Ok(entry) => Ok(entry.number),
        Err(StartFault::NoEntry) => Err(refusal(alloc, 7, no_entry(alloc, name))),
        Err(_) => Err(no_memory(alloc)),
    }
}

// The answer with what was found.
fn found_answer(alloc: Global, bytes: &[u8], end: ProbeEnd) -> Answer
    ensures value { (result ≡ spec.found_answer bytes.now (seen_end end)) ⊎ (result ≡ answers.no_memory) }
{
    match end {
        ProbeEnd::Found { args, kind, at, .. } => {
            match fault_line(alloc, bytes, args.as_slice(), kind, at) {
                Ok(line) => Answer {
                    status: FAULT,
                    out: Bytes::new(line),
                    err: Bytes::new(Vec::new(alloc)),
                },
                Err(_) => no_memory(alloc),
            }
        }
        ProbeEnd::None {
            tried,
            met,
            undecided,
        } => match none_line(alloc, tried, met, undecided) {
            Ok(line) => Answer {
                status: 0,
                out: Bytes::new(line.into_bytes()),
                err: Bytes::new(Vec::new(alloc)),
            },
            Err(_) => no_memory(alloc),
        },
    }
}

// What the probe of the function or method with this number comes to.
fn probed(alloc: Global, bytes: &[u8], typed: &Typed, entry: u32, tuples: u64, ticks: u64) -> Answer
    requires routine { IsRoutine (core_of typed.now) entry }
    ensures answers { (s : Setting) → Answers s (spec.probes bytes.now (core_of typed.now) tuples ticks entry) result }
{
    if tuples > MOST_TUPLES || ticks > MOST_TICKS {
        return no_memory(alloc);
    }
    match probe(alloc, typed, entry, tuples as u32, ticks as u32) {
        Ok(end) => found_answer(alloc, bytes, end),
        Err(_) => no_memory(alloc),
    }
}

// What the probe of the source with these bytes comes to.
fn probe_source(
    alloc: Global,
    source: &str,
    bytes: &[u8],
    name: &str,
    tuples: u64,
    ticks: u64,
) -> Answer
    requires { length bytes.now < 2 ^ 32 }
    ensures answers { (s : Setting) → Answers s (spec.probes_source source.now name.now tuples ticks bytes.now) result }
{
    let typed = match typed_in(alloc, source, bytes) {
        Ok(typed) => typed,
        Err(answer) => return answer,
    };
    match entry_in(alloc, &typed, name) {
        Ok(entry) => probed(alloc, bytes, &typed, entry, tuples, ticks),
        Err(answer) => answer,
    }
}

/// The answer of `probe`: the first of so many tuples of arguments on which the function or method of this name faults
/// within so many ticks, with the kind and the place of the fault, and status 12; or that none of them faults. The source is
/// read as for a listing of its code, and then the name. Whether the conditions of the program are true isn't asked.
pub fn probe_answer<F: Files>(
    alloc: Global,
    source: &str,
    name: &str,
    tuples: u64,
    ticks: u64,
    files: &mut F,
) -> Answer
    ensures answers { During (F.told files.old) (F.load_faults files.old) (F.load_faults files.new) (F.misses files.old) (F.misses files.new) (λ s. Answers s (spec.probe_steps s source.now name.now tuples ticks) result) }
    ensures kept { (other : List ℕ) → F.told files.new other ≡ F.told files.old other }
    ensures load_count { (other : List ℕ) → F.load_faults files.old other ≤ F.load_faults files.new other }
    ensures miss_count { (other : List ℕ) → F.misses files.old other ≤ F.misses files.new other }
    ensures save_count { F.save_faults files.new ≡ F.save_faults files.old }
{
    match load_alone(alloc, source, files) {
        Ok(bytes) => probe_source(alloc, source, bytes.as_slice(), name, tuples, ticks),
        Err(answer) => answer,
    }
}
