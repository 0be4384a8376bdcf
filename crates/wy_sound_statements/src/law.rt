//! The law of statements, as the contract of a function without a body.
ghost use Rattle.wy_sound_statements.specs.Ends.{BlocksAreSound};

/// A block of statements, from a store that is at the point before it: declarations, assignments, of parts too, calls,
/// `return`, `assert`, `skip`, `fail`, `if`, loops with `break` and `continue`, in each other; what it meets being of the kinds that it asks for. Where
/// each condition that it owes is true, it is no fault at any number of ticks; and however it ends, the store is at the point
/// there, or the result is as the contract says.
pub fn statements_are_sound()
    ensures sound { BlocksAreSound }
{}
