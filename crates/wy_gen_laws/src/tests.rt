//! The code of a test of a type does what the test does: structural types visit by visit, and declared types as calls of
//! their routines, by levels of types.
//!
//! docs/how/CODE.md says how the law on whole programs comes of such parts.
ghost use Rattle.wy_gen_laws.specs.tests.Tested.{CodeHasTypeRoutines, TestsAreFollowed};

/// In each formed program in which a type with clauses has a variable, the run of the code of a test of a type follows the
/// test: it makes at most 16 steps for each visit and each tick of a clause, never lacks a step unless a clause is a fault,
/// and comes behind the code with the answer in its register and the value where it was.
pub fn tests_are_followed()
    ensures followed { TestsAreFollowed }
{}

/// Behind the routines of functions and methods the code of a program has that of each declared type.
pub fn code_has_type_routines()
    ensures has { CodeHasTypeRoutines }
{}
