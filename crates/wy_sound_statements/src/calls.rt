//! A call follows its walk: of what is declared, where its body keeps its contract, and of `print` and `print_int`.
ghost use Rattle.wy_sound_statements.specs.calls.CallLaws.{CallsAreSound};
ghost use Rattle.wy_sound_statements.specs.calls.PrintLaws.{PrintsAreSound};

/// A call of a declared function or method whose requires clauses are safe and whose body keeps its contract: where the types and
/// the requires clauses that are owed at the call are true it is no fault; and what it gives, the new name of its walk stands for,
/// whose type and whose ensures clauses are known.
pub fn calls_are_sound()
    ensures sound { CallsAreSound }
{}

/// A text of numbers is printed without a fault where what is owed is true, that each of its items is a character of ASCII; and
/// behind the call this is known. A number is always printed.
pub fn prints_are_sound()
    ensures sound { PrintsAreSound }
{}
