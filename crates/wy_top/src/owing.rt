//! The program of a source, and what it owes.
ghost use Rattle.std.specs.Prelude.{◌≡◌, ◌<◌, ◌^◌, length, IfOk};
ghost use Rattle.std.specs.String.{string_bytes};
ghost use Rattle.wy_top.specs.Kept.{IsKept, program_in};
ghost use Rattle.wy_top.specs.Programs as spec;
ghost use Rattle.wy_top_probe.specs.wy_top_answers.Calls.{AnswersFault};
ghost use Rattle.wy_top_probe.specs.wy_top_answers.Steps.{Gives, Setting, came};
ghost use Rattle.wy_top.specs.Faults as faults;
ghost use Rattle.wy_top.specs.Owed.{Owes};
ghost use Rattle.wy_top_probe.specs.wy_flow_spec.typing.TypedPrograms.{core_of, flow_of};

use crate::fault::{OwedFault, is_no_memory, offset, word};
use crate::reading::read_owed;
use crate::writing::owed_text;
use std::alloc::{AllocError, Global};
use wy_data::Bytes;
use wy_term::Conds;
use wy_top_probe::locate;
use wy_top_probe::wy_flow_spec::typing::Typed;
use wy_top_probe::wy_top_answers::report::source_fault;
use wy_top_probe::wy_top_answers::{Answer, no_memory, refusal};

/// A typed and assigned program, and the conditions that it owes.
#[derive(Drop)]
pub struct Owed {
    pub typed: Typed,
    pub conds: Conds,
}

// The line of a fault, at its place in the source.
fn fault_line(
    alloc: Global,
    name: &str,
    bytes: &[u8],
    fault: OwedFault,
) -> Result<String, AllocError>
    ensures value { IfOk result (λ s. string_bytes s ≡ spec.fault_lines name.now bytes.now fault) }
{
    let place = locate(bytes, offset(fault));
    source_fault(alloc, name, place.line, place.column, word(fault))
}

// The answer to a fault.
fn fault_answer(alloc: Global, name: &str, bytes: &[u8], fault: OwedFault) -> Answer
    ensures value { AnswersFault (faults.is_no_memory fault) 1 (spec.fault_lines name.now bytes.now fault) result }
{
    if is_no_memory(fault) {
        return no_memory(alloc);
    }
    refusal(alloc, 1, fault_line(alloc, name, bytes, fault))
}

/// The program of the source with these bytes and what it owes, or the answer with the line of the first fault.
pub fn owed_by(alloc: Global, name: &str, bytes: &[u8]) -> Result<Owed, Answer>
    requires { length bytes.now < 2 ^ 32 }
    ensures gives { (s : Setting) → Gives s (spec.owes name.now bytes.now) (came program_in result) }
    ensures owes { IfOk result (λ o. Owes bytes.now (core_of o.typed) (flow_of o.typed)) }
    ensures kept { IfOk result IsKept }
{
    match read_owed(alloc, bytes) {
        Ok((typed, conds)) => Ok(Owed { typed, conds }),
        Err(fault) => Err(fault_answer(alloc, name, bytes, fault)),
    }
}

/// The list of what the program of the source with these bytes owes, or the answer with the line of the first fault.
pub fn listed(alloc: Global, name: &str, bytes: &[u8]) -> Result<Bytes, Answer>
    requires { length bytes.now < 2 ^ 32 }
    ensures gives { (s : Setting) → Gives s (spec.lists name.now bytes.now) result }
{
    match owed_text(alloc, bytes) {
        Ok(text) => Ok(Bytes::new(text)),
        Err(fault) => Err(fault_answer(alloc, name, bytes, fault)),
    }
}
