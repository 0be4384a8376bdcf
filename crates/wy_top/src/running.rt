//! The run of a program that started.
ghost use Rattle.std.specs.Prelude.{◌≡◌, ◌≤◌, IfOk};
ghost use Rattle.std.specs.String.{string_bytes};
ghost use Rattle.wy_top_probe.specs.wy_top_answers.Showing.{sinks};
ghost use Rattle.wy_top_probe.specs.wy_mach_run.Running.{CanRun};
ghost use Rattle.wy_top.specs.Runs as spec;

use crate::launching::Launch;
use std::alloc::{AllocError, Global};
use wy_port::{Sink, write_whole};
use wy_top_probe::wy_top_answers::report::{stats, steps_spent};
use wy_top_probe::{RunEnd, run_start};

/// The status where a sink failed.
const SINK_FAILED: u8 = 5;

// The line for the nodes that a run copied and left, where it is asked for.
fn stats_line(alloc: Global, asked: bool, copies: u64, nodes: u64) -> Result<String, AllocError>
    ensures value { IfOk result (λ s. string_bytes s ≡ spec.stats_text asked copies nodes) }
{
    if !asked {
        return Ok(String::new(alloc));
    }
    stats(alloc, copies, nodes)
}

// Writes a text on the sink of errors, and answers this status or that the sink failed.
fn report<E: Sink>(err: &mut E, text: &[u8], status: u8) -> u8
    ensures reports { spec.Reports status text.now result (E.taken err.old) (E.taken err.new) (E.faults err.old) (E.faults err.new) }
    ensures count { E.faults err.old ≤ E.faults err.new }
{
    match write_whole(err, text) {
        Ok(()) => status,
        Err(_) => SINK_FAILED,
    }
}

// Writes what stands behind the output on the sink of errors, and answers the status.
fn ended<E: Sink>(alloc: Global, end: RunEnd, asked: bool, err: &mut E) -> u8
    ensures ends { spec.EndsRun asked end result (E.taken err.old) (E.taken err.new) (E.faults err.old) (E.faults err.new) }
    ensures count { E.faults err.old ≤ E.faults err.new }
{
    match end {
        RunEnd::Done { copies, nodes } => match stats_line(alloc, asked, copies, nodes) {
            Ok(line) => report(err, line.as_bytes(), 0),
            Err(_) => 9,
        },
        RunEnd::Spent => report(err, steps_spent().as_bytes(), 8),
        RunEnd::OutFault => SINK_FAILED,
    }
}

/// Runs a program that started, for so many steps: first its lines are written on `err`, then the machine writes what the
/// program prints and the text of its result on `out`, and then the line for copies, where it is asked for, or why the run
/// didn't end is written on `err`. It answers the status.
pub fn run<O: Sink, E: Sink>(
    alloc: Global,
    launch: &Launch,
    steps: u64,
    asked: bool,
    out: &mut O,
    err: &mut E,
) -> u8
    requires { CanRun launch.now.start }
    ensures ran { spec.Ran launch.now steps asked result (sinks (O.taken out.old) (O.taken out.new) (O.faults out.old) (O.faults out.new) (E.taken err.old) (E.taken err.new) (E.faults err.old) (E.faults err.new)) }
{
    match write_whole(err, launch.lines.as_slice()) {
        Ok(()) => {}
        Err(_) => return SINK_FAILED,
    }
    match run_start(alloc, &launch.start, steps, out) {
        Ok(end) => ended(alloc, end, asked, err),
        Err(_) => 9,
    }
}
