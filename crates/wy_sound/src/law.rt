//! The laws, each as the contract of a function without a body.
ghost use Rattle.wy_sound.specs.Accepted.{AcceptedAreShown, ValuesAreHeld};
ghost use Rattle.wy_sound.specs.Readings.{ConditionsTellMembers};
ghost use Rattle.wy_sound.specs.Sound.{MembershipAgrees, ProgramsAreSound};

/// A program that is typed and assigned and of which every condition is true: of each function or method, on all arguments that
/// meet its precondition, the value semantics is a fault at no number of ticks; and where it is done the value is in the result's
/// type, and each ensures clause is true of it and of the arguments as they were at entry.
pub fn programs_are_sound()
    ensures sound { ProgramsAreSound }
{}

/// Of such a program, what the terms of conditions say of membership in a named type is membership by the value semantics, of data
/// that a program may hold.
pub fn membership_agrees()
    ensures agree { MembershipAgrees }
{}

/// So each condition of such a program says of the types that it lists what the value semantics says, by whatever names it is read
/// that meet the formulas of these types.
pub fn conditions_tell_members()
    ensures tell { ConditionsTellMembers }
{}

/// Of a program that is accepted nothing is left to show, where its core is such as names give: so what is accepted never faults.
pub fn accepted_programs_are_shown()
    ensures shown { AcceptedAreShown }
{}

/// Values of the language are data that a program may hold.
pub fn values_are_held()
    ensures held { ValuesAreHeld }
{}
