//! What evaluations of typed expressions meet is of the kinds that they ask for.
//!
//! The walk of conditions asks of each evaluation that operands are of the kinds of their operators and that variables have values.
//! Here it follows from typing. `specs/suits/Laws` has the law.
ghost use Rattle.wy_sound_kinds.specs.suits.Laws.{CodeSuits, ContractsSuit};

/// Where an expression is typed and the variables that it uses have values of their types, what its evaluation meets is of the
/// kinds that it asks for; in code, where calls take arguments of the types of their parameters, and in contracts, which call
/// nothing. An expression that is taken for a number by the type with its number is one.
pub fn expressions_suit()
    ensures code { CodeSuits }
    ensures contracts { ContractsSuit }
{}
