//! Named types: which data they stand for.
//!
//! A condition is true by each choice of data for named types that meets the formulas of the types that it mentions. There is a
//! choice that meets the formulas of all types at once, so that each condition speaks of it. By it a formula may write a type
//! out or test it by its name: both say the same.
ghost use Rattle.wy_sound_types.specs.members.Laws.{ConditionsAreTrueBy, MembersAreTold, SomeMembersMeet};

/// Where the names of a program lead to declarations and its types recur through records or arrays, there are data for all
/// named types at once that meet the formulas of all types.
pub fn some_members_meet()
    ensures meet { SomeMembersMeet }
{}

/// Conditions of a program that are true, whatever their names stand for, are true by data that meet the formulas of all types.
pub fn conditions_are_true_by_members()
    ensures truth { ConditionsAreTrueBy }
{}

/// By data that meet the formulas of all types, what a formula says of a named type, whether the type is written out there or
/// not, is true exactly of the type's data; and these are the data in its definition of which its clauses are true.
pub fn members_are_told()
    ensures told { MembersAreTold }
{}
