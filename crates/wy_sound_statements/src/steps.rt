//! Values that come into variables, and results that are given, follow their walks.
ghost use Rattle.wy_sound_statements.specs.steps.Steps.{ResultsLeave, ValuesComeIn};

/// A value comes into a variable of a type: where the type that is owed is true it is no fault, and the store with the value is at
/// the point behind, where the variable stands for the value's term, or for a new name that equals it.
pub fn values_come_in()
    ensures come { ValuesComeIn }
{}

/// A result is given, or a body without one ends: where what is owed is true it is no fault, and the result is of its type and the
/// ensures clauses are true of it and of the arguments.
pub fn results_leave()
    ensures leave { ResultsLeave }
{}
