//! The named types that a program's conditions mention give `in` one meaning.
//!
//! Whether a datum is of a named type is asked of the definition and the clauses of the type. A question on a type leads to
//! questions on types of lower levels (those that clauses test), on smaller data (names inside of records and arrays), or on
//! types of lower ranks (names outside of them), so no question leads to itself.
ghost use Rattle.wy_vc_laws.specs.grounded.Grounds.{OwedConditionsAreGrounded};

/// The named types of each condition of a program are grounded, where the program's names lead to declarations and its types
/// recur through records or arrays, never through clauses. So each condition speaks of exactly one reading of `in`
/// (`truth_is_by_readings` of wy_term_subst).
pub fn owed_conditions_are_grounded()
    ensures grounded { OwedConditionsAreGrounded }
{}
