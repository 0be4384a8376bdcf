//! Runs.
ghost use Rattle.std.specs.Prelude.{◌≡◌, ◌≤◌, Some, IfOk, OnErr, length, map, slice_get};
ghost use Rattle.wy_value.specs.Seen.{seen, seen_items};
ghost use Rattle.wy_value.specs.Shapes.{IsShapes};
ghost use Rattle.wy_value.specs.Values.{AreValues};
ghost use Rattle.wy_code.specs.declared.routines.Routine.{Routine};
ghost use Rattle.wy_code_spec.specs.step.Step.{State, after};
ghost use Rattle.wy_mach.specs.States.{IsMachine, HasInts};
ghost use Rattle.wy_mach.specs.Running.{HasSteps, LacksNone, Ran, PrintsFront, ShowsFirst, state_behind};
ghost use Rattle.wy_mach.specs.SharedTurns.{DoneShared, RanShared};

use crate::machine::{Machine, Pace, Turn};
use std::alloc::Global;
use wy_code::{Code, Instr};
use wy_heap::NoMemory;
use wy_port::Sink;
use wy_value::Value;

/// How a run ends.
#[derive(Drop)]
pub enum RunEnd {
    /// The entry's routine ended: with the text of the result, where one is wanted, the count of nodes
    /// that were copied in this run, and the count of nodes that were left when the result alone was held.
    Done {
        text: Option<Vec<u8>>,
        copies: u64,
        nodes: u64,
    },
    /// The run has no end within the steps.
    Spent,
    /// The sink failed, and counted it. It took a front of what the run prints within the steps.
    OutFault,
}

/// Runs a routine of the code on arguments, for at most so many instructions. None of these is lacking: behind each
/// the run goes on, or it has ended. Each answer comes when all places of the run are released.
pub fn run<O: Sink>(
    alloc: Global,
    code: &Code,
    entry: u32,
    args: &[Value],
    steps: u64,
    cap: u32,
    has_result: bool,
    out: &mut O,
) -> Result<RunEnd, NoMemory>
    requires table { IsShapes code.now.shapes }
    requires ints { HasInts code.now }
    requires entry { (r : Routine) × (slice_get code.now.routines entry ≡ Some r) × (length args.now ≡ r.params) }
    requires args { AreValues (seen_items args.now) }
    requires cap { 1 ≤ cap }
    requires steps { LacksNone (state_behind code.now entry (map seen args.now) steps) }
    ensures ran { IfOk result (Ran (state_behind code.now entry (map seen args.now) steps) has_result (O.taken out.old) (O.taken out.new) (O.faults out.old) (O.faults out.new)) }
    ensures shared { IfOk result (RanShared code.now entry (map seen args.now) steps cap) }
    ensures no_memory { OnErr result (PrintsFront (O.taken out.old) (O.taken out.new) (state_behind code.now entry (map seen args.now) steps)) }
    ensures count { O.faults out.old ≤ O.faults out.new }
{
    let Ok(mut machine) = Machine::start(alloc, code, entry, args, cap, has_result) else {
        return Err(NoMemory);
    };
    let end = turns(&mut machine, code, steps, out);
    machine.stop();
    end
}

// makes at most so many instructions, of which none is lacking
fn turns<O: Sink>(
    machine: &mut Machine,
    code: &Code,
    steps: u64,
    out: &mut O,
) -> Result<RunEnd, NoMemory>
    requires is { IsMachine code.now machine.old }
    requires steps { HasSteps code.now machine.old steps }
    ensures is { IsMachine code.now machine.new }
    ensures ran { IfOk result (λ end. (st : State) → ShowsFirst machine.old st → Ran (after code.now steps st) machine.old.has_result (O.taken out.old) (O.taken out.new) (O.faults out.old) (O.faults out.new) end) }
    ensures shared { IfOk result (DoneShared code.now machine.old steps) }
    ensures no_memory { OnErr result ((st : State) → ShowsFirst machine.old st → PrintsFront (O.taken out.old) (O.taken out.new) (after code.now steps st)) }
    ensures count { O.faults out.old ≤ O.faults out.new }
{
    for i in 0..steps {
        let Some(instr) = machine.next(code) else {
            unreachable!()
        };
        match instr {
            Instr::Return(from) => match machine.returned(code, *from)? {
                Turn::Went => {
                    continue;
                }
                Turn::Done {
                    text,
                    copies,
                    nodes,
                } => {
                    return Ok(RunEnd::Done {
                        text,
                        copies,
                        nodes,
                    });
                }
                Turn::OutFault => {
                    return Ok(RunEnd::OutFault);
                }
                Turn::Stuck => unreachable!(),
            },
            _ => match machine.turn(code, instr, out) {
                Pace::Went => {}
                Pace::OutFault => {
                    return Ok(RunEnd::OutFault);
                }
                Pace::Stuck => unreachable!(),
                Pace::NoMemory => {
                    return Err(NoMemory);
                }
            },
        }
    }
    Ok(RunEnd::Spent)
}
