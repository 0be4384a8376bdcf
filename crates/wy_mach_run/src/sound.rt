//! Runs of programs that are never a fault.
//!
//! `specs/sound/Results` says what a function or method is to give by its contract, and `specs/sound/Runs` what a run of its code comes
//! to, step by step, beside what the program does. The law of the code is put here on top of that of soundness.
ghost use Rattle.wy_mach_run.specs.sound.Runs.{SoundProgramsRunRightly, ValuesAreProper};

/// In each formed program whose parameters are numbered in order, and of whose types each with clauses has a variable: where a
/// function or method on values, as many as it has parameters, is no fault at any number of ticks, and what it gives is as its
/// contract says, the run of the code that is made of the program never lacks a step. Behind any number of steps it has ended
/// with a value and an output of the program, where its contract holds; or it goes on, the program isn't done within a
/// sixteenth of the steps, and what was printed lies between what the program prints at fewer ticks and at more.
pub fn sound_programs_run_rightly()
    ensures rightly { SoundProgramsRunRightly }
{}

/// Values are such data as the law of the code asks of arguments.
pub fn argument_values_are_proper()
    ensures proper { ValuesAreProper }
{}
