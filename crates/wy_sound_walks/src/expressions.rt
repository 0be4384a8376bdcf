//! The evaluation of an expression follows its walk.
//!
//! Where each condition that the walk of an expression owes is true, and what the evaluation meets is of the kinds that it asks
//! for, the evaluation is no fault; and where it has an answer, the term of the walk means it.
ghost use Rattle.wy_sound_walks.specs.expressions.Laws.{ExpressionsAreSound, TypesAreTold};

/// The formula that a datum is in a type is true exactly where the datum is in the type, whatever sets of data named types
/// stand for, if what is said of named types is true exactly of these.
pub fn types_are_told()
    ensures told { TypesAreTold }
{}

/// An expression that calls nothing, in code or in a contract: where what it meets is of the kinds that it asks for, and each
/// condition that its walk owes is true, its evaluation is no fault at any number of ticks; and an answer, whether the
/// conditions are true or not, is what the term of its walk means, at names at which the hypotheses of the walk hold.
pub fn expressions_are_sound()
    ensures sound { ExpressionsAreSound }
{}
