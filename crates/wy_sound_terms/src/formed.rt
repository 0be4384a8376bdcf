//! What a program owes meets what the calls on conditions ask for: terms are of the sorts that their places want, each named
//! type is listed once, and its formula has no free name but the one beside it.
ghost use Rattle.wy_sound_terms.specs.formed.OwedConditions.{OwedConditionsAreFormed};

/// The conditions of a program, whatever the program and its flow types: hypotheses, goals and the formulas of named types
/// are formulas whose terms are of the sorts that their places want; no condition lists a type twice, and the formula of a
/// listed type has no free name but the Val name beside it.
pub fn owed_conditions_are_formed()
    ensures formed { OwedConditionsAreFormed }
{}
