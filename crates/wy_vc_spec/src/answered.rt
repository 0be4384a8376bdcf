//! The test of a precondition has an answer, in each core that name resolution gives.
//!
//! A contract calls nothing, so it wants no tick; a type is asked about its names outside of records and arrays in an
//! order, about the others on smaller data, and its clauses test types of lower levels alone. So no question of a test
//! goes on for ever.
ghost use Rattle.wy_vc_spec.specs.answered.Answered.{LimitedPreconditionsAreSettled, PreconditionsAreAnswered};

/// The test of a precondition ends with a verdict, in each core whose names lead where they should, whose contracts call
/// nothing and whose types recur through records or arrays.
pub fn preconditions_are_answered()
    ensures answered { PreconditionsAreAnswered }
{}

/// With a limit on turns it ends with a verdict exactly where its cost is within the limit, and else is spent.
pub fn preconditions_within_turns_are_answered()
    ensures settled { LimitedPreconditionsAreSettled }
{}
