//! The answer to a source that is faulted.
ghost use Rattle.std.specs.Prelude.{◌≡◌, IfOk};
ghost use Rattle.std.specs.String.{string_bytes};
ghost use Rattle.wy_link_load.specs.wy_top_answers.Calls.{AnswersFault};
ghost use Rattle.wy_top_source.specs.texts.Refusals as refusals;
ghost use Rattle.wy_top_probe.specs.Texts as spec;

use std::alloc::{AllocError, Global};
use wy_link_load::locate;
use wy_link_load::wy_top_answers::report::source_fault;
use wy_link_load::wy_top_answers::{Answer, no_memory, refusal};
use wy_top_source::texts::{Refusal, is_no_memory, offset, word};

// The line of a fault, at its place in the source.
fn fault_line(alloc: Global, name: &str, bytes: &[u8], fault: Refusal) -> Result<String, AllocError>
    ensures value { IfOk result (λ s. string_bytes s ≡ spec.fault_lines name.now bytes.now fault) }
{
    let place = locate(bytes, offset(fault));
    source_fault(alloc, name, place.line, place.column, word(fault))
}

/// The answer to a fault.
pub fn fault_answer(alloc: Global, name: &str, bytes: &[u8], fault: Refusal) -> Answer
    ensures value { AnswersFault (refusals.is_no_memory fault) 1 (spec.fault_lines name.now bytes.now fault) result }
{
    if is_no_memory(fault) {
        return no_memory(alloc);
    }
    refusal(alloc, 1, fault_line(alloc, name, bytes, fault))
}
