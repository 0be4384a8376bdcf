//! Laws of named types, each as the contract of a function without a body.
ghost use Rattle.wy_sound_types.specs.Laws.{ChecksAreRight, MembershipIsSaid, TestsAreRight, TypesAreRead};
ghost use Rattle.wy_sound_types.specs.Routines.{ContractsFit};
ghost use Rattle.wy_sound_types.specs.Typed.{ClausesOfTypesAreQuiet, ClausesOfTypesMeet};

/// Where the conditions of a program are true by data that meet the formulas of all types, and what the clauses of its types meet
/// is of the kinds that they ask for: a test of a type is no fault, in code or in a contract, and its answer is whether the datum is in
/// the type, of each datum that a program may hold; and so is what a contract asks of a value.
pub fn tests_are_right()
    ensures right { TestsAreRight }
{}

/// The checks of types that calls, variables and results make are no faults, and answer so.
pub fn checks_are_right()
    ensures right { ChecksAreRight }
{}

/// What a type says by such data lies between its downward and its upward reading, of data that a program may hold, and is both
/// where no type with clauses is reached. So the laws of typed expressions and clauses may rest on tests that answer so.
pub fn types_are_read()
    ensures read { TypesAreRead }
{}

/// Membership by evaluation, in which a clause that faults isn't true, is what types say by such data, of data that a program
/// may hold.
pub fn membership_is_said()
    ensures said { MembershipIsSaid }
{}

/// Clauses of types that are typed, and that call nothing: where tests answer as types say, what they meet is of the kinds that
/// they ask for, at each datum in their types' definitions that a program may hold, in code and in contracts.
pub fn clauses_of_types_meet()
    ensures meet { ClausesOfTypesMeet }
{}

/// Arguments in their parameters' types, by their upward readings, fit; and so do typed requires clauses at the entry, and typed
/// ensures clauses with each result of the result's type that a program may hold.
pub fn contracts_fit()
    ensures fit { ContractsFit }
{}

/// Clauses of types call nothing, where the calls of the program stand where they may.
pub fn clauses_of_types_are_quiet()
    ensures quiet { ClausesOfTypesAreQuiet }
{}
