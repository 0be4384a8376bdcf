//! What the code of a program is.
//!
//! `specs/TypeTests` has the code of a test of a type, `specs/Expressions` that of an expression,
//! `specs/Statements` that of a statement, and `specs/Programs` the routines. `laws` shows the code of
//! small programs, and what holds of each code: what its numbers name. The generator's contract cites
//! both.
ghost use Rattle.std.specs.Prelude.{ℕ, All, length};
ghost use Rattle.wy_core.specs.CoreTree.{Core};
ghost use Rattle.wy_code_spec.specs.compiled.Examples.{ProgramsHave};
ghost use Rattle.wy_code_spec.specs.compiled.Fields.{HasFields};
ghost use Rattle.wy_code_spec.specs.compiled.Programs.{code_of};
ghost use Rattle.wy_code_spec.specs.compiled.Ranges.{CallsBelow, IsFramed, IsNamed};
ghost use Rattle.wy_core.specs.formed.Bound.{Bound};
ghost use Rattle.wy_value.specs.Shapes.{IsShapes};

/// The code of small programs, as text.
pub fn small_programs_have_this_code()
    ensures value { ProgramsHave }
{}

/// The frame of each routine has each register that its instructions name and room for its
/// parameters, and each jump goes to an instruction of the routine.
pub fn routines_are_framed()
    ensures value { (core : Core ℕ) → All IsFramed (code_of core).routines }
{}

/// Each shape and each name of a field that a routine names by its number stands in the table of the
/// program.
pub fn routines_are_named()
    ensures value { (core : Core ℕ) → All (IsNamed (code_of core).shapes) (code_of core).routines }
{}

/// The table of shapes of a program is one that a heap takes: where the names of fields in the
/// program are names, and those of each record rise.
pub fn tables_are_shapes()
    ensures value { (core : Core ℕ) → HasFields core → IsShapes (code_of core).shapes }
{}

/// Each call is one of a routine of the program, where each name of the program leads where it should.
pub fn calls_are_of_routines()
    ensures value { (core : Core ℕ) → Bound core → All (CallsBelow (length (code_of core).routines)) (code_of core).routines }
{}
