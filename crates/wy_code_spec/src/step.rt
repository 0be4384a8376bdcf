//! What instructions do: one step of a machine whose registers hold values.
//!
//! It is a definition in `specs/Step`, and no code: frames with registers, the effect of each
//! instruction on its frame in the order of the kinds (ORDER Instr), and the run of a routine step by
//! step. An operand outside of an instruction's domain has no step. `specs/Examples` shows each
//! instruction in a small routine.
ghost use Rattle.wy_code_spec.specs.step.Examples.{RoutinesDo};

/// What each instruction does in a small routine, row by row.
pub fn small_routines_do_so()
    ensures value { RoutinesDo }
{}
