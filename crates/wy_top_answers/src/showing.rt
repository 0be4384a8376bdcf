//! Writing an answer.
ghost use Rattle.std.specs.Prelude.{◌≡◌, ◌≤◌};
ghost use Rattle.wy_top_answers.specs.Showing.{Shown, sinks};

use crate::answer::Answer;
use wy_port::{Sink, write_whole};

/// The status where a sink failed.
const SINK_FAILED: u8 = 5;

/// Writes an answer, first its lines on `err` and then its text on `out`, and answers the status: that of the answer, or 5
/// where a sink failed.
pub fn show<O: Sink, E: Sink>(answer: &Answer, out: &mut O, err: &mut E) -> u8
    ensures shown { Shown answer.now result (sinks (O.taken out.old) (O.taken out.new) (O.faults out.old) (O.faults out.new) (E.taken err.old) (E.taken err.new) (E.faults err.old) (E.faults err.new)) }
    ensures out_count { O.faults out.old ≤ O.faults out.new }
    ensures err_count { E.faults err.old ≤ E.faults err.new }
{
    match write_whole(err, answer.err.as_slice()) {
        Ok(()) => {}
        Err(_) => return SINK_FAILED,
    }
    match write_whole(out, answer.out.as_slice()) {
        Ok(()) => answer.status,
        Err(_) => SINK_FAILED,
    }
}
