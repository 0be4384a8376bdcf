//! What typing of a whole program finds of each of its types, functions and methods.
ghost use Rattle.wy_sound.specs.typing.Parts.{PartsAreFormed, VariablesHaveTypes};
ghost use Rattle.wy_sound.specs.typing.Sources.{NumberedHaveVariables};
ghost use Rattle.wy_sound.specs.typing.Typed.{AliasesAreTyped, RoutinesAreTyped};

/// Where each type has a variable if it has clauses, the clauses of each type of a typed program are typed behind the expressions
/// before them, and have numbers from theirs on.
pub fn aliases_are_typed()
    ensures typed { AliasesAreTyped }
{}

/// So are the contract and the body of each function and method; its parameters are variables of their own, and its types are such
/// as a source may write.
pub fn routines_are_typed()
    ensures typed { RoutinesAreTyped }
{}

/// Types have the same variables where their expressions have numbers.
pub fn numbered_types_have_variables()
    ensures have { NumberedHaveVariables }
{}

/// What holds of a formed program holds of each of its types, functions and methods.
pub fn parts_are_formed()
    ensures formed { PartsAreFormed }
{}

/// The types of variables are the same with numbers, and such as a source may write.
pub fn variables_have_types()
    ensures types { VariablesHaveTypes }
{}
