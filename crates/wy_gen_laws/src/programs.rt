//! The code of a program does what the program does.
//!
//! docs/how/CODE.md says how this comes of the laws on expressions, tests of types, statements and routines.
ghost use Rattle.wy_gen_laws.specs.programs.Programs.{ProgramsAreSimulated};

/// In each formed program whose parameters are numbered in order, and of whose types each with clauses has a variable: where
/// no evaluation of a function or method on values, as many as it has parameters, is a fault, the run of the code never lacks
/// a step; it ends with a value and an output exactly where the evaluation is done with these, within 16 steps for each tick
/// and 16 more; at each number of ticks it has printed what the evaluation has, behind 16 steps for each and 16 more; and
/// behind any number of steps it has printed no more than the evaluation has from some number of ticks on.
pub fn programs_are_simulated()
    ensures simulated { ProgramsAreSimulated }
{}
