//! Runs.
ghost use Rattle.std.specs.Prelude.{◌≤◌, ◌++◌, ◌∷◌, [], ℕ, Bool, List, Option, IfOk, OnErr, OnOk, ◌≡◌};
ghost use Rattle.wy_mach.specs.Running.{Ran};
ghost use Rattle.wy_port.specs.Count.{Rose};
ghost use Rattle.wy_port.specs.Taken.{TookFront, with_taken};
ghost use Rattle.wy_mach_run.specs.Running.{CanRun, Closes, CountsSo, EndsSo, RunsTo, SameCounts, WritesFront, state_of};
ghost use Rattle.wy_gen_laws.specs.wy_code_spec.step.Step.{State};

use crate::end::RunEnd;
use crate::parts::Start;
use std::alloc::Global;
use wy_heap::NoMemory;
use wy_mach::{RunEnd as MachineEnd, run};
use wy_port::{Failed, Sink, write_whole};

/// The most holders that a node has: at one more it is copied.
const CAP: u32 = 4_294_967_295;

/// Runs what a start has, for at most so many steps, of which it lacks none. `out` takes what the program prints as it is
/// printed, and then, where the entry gives a result, its text and a line end. What it counts of copies and nodes is what
/// the machine counted in this run. All places of the run are released before the answer.
pub fn run_start<O: Sink>(
    alloc: Global,
    start: &Start,
    steps: u64,
    out: &mut O,
) -> Result<RunEnd, NoMemory>
    requires { CanRun start.now }
    ensures runs { IfOk result (RunsTo start.now steps (O.taken out.old) (O.taken out.new) (O.faults out.old) (O.faults out.new)) }
    ensures counts { IfOk result (CountsSo start.now steps) }
    ensures no_memory { OnErr result (WritesFront start.now.has_result (O.taken out.old) (O.taken out.new) (state_of start.now steps)) }
    ensures count { O.faults out.old ≤ O.faults out.new }
{
    let args = start.args.as_slice();
    match run(
        alloc,
        &start.code,
        start.entry,
        args,
        steps,
        CAP,
        start.has_result,
        out,
    ) {
        Ok(end) => Ok(ended(end, out)),
        Err(_) => Err(NoMemory),
    }
}

// Writes the text of the result, where there is one, and says how the run ended.
fn ended<O: Sink>(end: MachineEnd, out: &mut O) -> RunEnd
    ensures ended { (wanted : Bool) → (st : State) → (before : Option (List ℕ)) → (failed : ℕ) → failed ≤ O.faults out.old → Ran st wanted before (O.taken out.old) failed (O.faults out.old) end → EndsSo wanted st before (O.taken out.new) failed (O.faults out.new) result }
    ensures counts { SameCounts end result }
    ensures count { O.faults out.old ≤ O.faults out.new }
{
    match end {
        MachineEnd::Done {
            text,
            copies,
            nodes,
        } => closed(text, copies, nodes, out),
        MachineEnd::Spent => RunEnd::Spent,
        MachineEnd::OutFault => RunEnd::OutFault,
    }
}

// Writes the text of the result and a line end, where it is wanted: the run is done, or the sink failed.
fn closed<O: Sink>(text: Option<Vec<u8>>, copies: u64, nodes: u64, out: &mut O) -> RunEnd
    ensures closed { Closes text copies nodes (O.taken out.old) (O.taken out.new) (O.faults out.old) (O.faults out.new) result }
    ensures count { O.faults out.old ≤ O.faults out.new }
{
    match text {
        Some(text) => match put_line(text.as_slice(), out) {
            Ok(()) => RunEnd::Done { copies, nodes },
            Err(_) => RunEnd::OutFault,
        },
        None => RunEnd::Done { copies, nodes },
    }
}

// Writes a text and a line end.
fn put_line<O: Sink>(text: &[u8], out: &mut O) -> Result<(), Failed>
    ensures taken { OnOk result (O.taken out.new ≡ with_taken (O.taken out.old) (text.now ++ 10 ∷ [])) }
    ensures front { OnErr result (TookFront (O.taken out.old) (O.taken out.new) (text.now ++ 10 ∷ [])) }
    ensures cause { OnErr result (Rose (O.faults out.old) (O.faults out.new)) }
    ensures count { O.faults out.old ≤ O.faults out.new }
{
    write_whole(out, text)?;
    write_whole(out, b"\n")
}
