//! What assignment gives of the conditions: where a program is assigned, each variable that a walk of its conditions comes
//! upon is marked where it is used, and the walk of a body with a result doesn't get to its end.
//!
//! `specs/marks/Bodies` and `specs/marks/Clauses` say the laws.
ghost use Rattle.wy_sound.specs.marks.Bodies.{BodiesAreReady, BodiesEnd};
ghost use Rattle.wy_sound.specs.marks.Clauses.{ContractsAreReady, TypesAreReady};

/// Along the walk of the conditions of a body of an assigned program, from the point where it begins, each variable that is used
/// is marked at the point where it is used.
pub fn assigned_bodies_are_ready()
    ensures ready { BodiesAreReady }
{}

/// The walk of the conditions of a body that has a result doesn't get to its end, in an assigned program.
pub fn assigned_bodies_end()
    ensures ends { BodiesEnd }
{}

/// The clauses of contracts of an assigned program use parameters alone, and those on what is left the result too.
pub fn assigned_contracts_are_ready()
    ensures ready { ContractsAreReady }
{}

/// The clauses of a declared type of an assigned program use the variable of the type alone.
pub fn assigned_types_are_ready()
    ensures ready { TypesAreReady }
{}
