//! What a program owes is folded throughout, since each term of a condition is folded as it is made, of terms that are folded.
ghost use Rattle.wy_vc_laws.specs.folded.FoldedConditions.{OwedConditionsAreFolded};

/// The conditions of a program, whatever the program and its flow types: each hypothesis, the goal, and the Val name and the
/// formula of each named type are folded to themselves, and so is all that they are made of.
pub fn owed_conditions_are_folded()
    ensures folded { OwedConditionsAreFolded }
{}
