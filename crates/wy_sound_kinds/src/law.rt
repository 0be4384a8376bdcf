//! The law of kinds, as the contract of a function without a body.
ghost use Rattle.wy_sound_kinds.specs.Laws.{AnswersHaveKinds, ValuesAreBounded};

/// Where an expression is typed and the variables that it uses have values of their types: each answer of its evaluation, in code
/// or in a contract, is in the expression's type, by its upward reading, and a datum that a program may hold; and where the answer
/// is true, the variables are in the types that they have where the expression is true, and where it is false, in the others.
pub fn answers_have_kinds()
    ensures kinds { AnswersHaveKinds }
{}

/// Each value is a datum that a program may hold.
pub fn values_are_bounded()
    ensures bounded { ValuesAreBounded }
{}
