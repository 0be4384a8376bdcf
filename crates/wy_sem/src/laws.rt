//! Laws of the value semantics. Each is the contract of a function without a body.
ghost use Rattle.std.specs.Prelude.{ℕ, List};
ghost use Rattle.wy_term.specs.wy_value.Datum.{Datum};
ghost use Rattle.wy_types.specs.wy_core.CoreTree.{Core, Alias};
ghost use Rattle.wy_sem.specs.Forms.{FormsDo};
ghost use Rattle.wy_sem.specs.Growth.{Grows, IsUnique, LimitIsExact};
ghost use Rattle.wy_sem.specs.Membership.{AnswersAsMembership};
ghost use Rattle.wy_sem.specs.Precondition.{MetIsExact};
ghost use Rattle.wy_sem.specs.Programs.{ProgramsDo};
ghost use Rattle.wy_sem.specs.Readings.{ReadingsAgree};

/// With more ticks an evaluation does the same and spends the same, and where its ticks ran out it
/// goes on: what was printed before is printed still.
pub fn grow_with_ticks()
    ensures value { (place : ℕ → ℕ) (core : Core ℕ) (f : ℕ) (args : List Datum) → Grows place core f args }
{}

/// An evaluation has one ending: at any two numbers of ticks that are enough, the result or the
/// fault is the same, and so is what was printed.
pub fn have_one_ending()
    ensures value { (place : ℕ → ℕ) (core : Core ℕ) (f : ℕ) (args : List Datum) → IsUnique place core f args }
{}

/// A limit on the turns of contracts is spent exactly where their count passes it, and changes
/// nothing otherwise; of an evaluation, and of the test of a precondition.
pub fn spend_a_limit_exactly()
    ensures value { (place : ℕ → ℕ) (core : Core ℕ) (f : ℕ) (args : List Datum) (limit : ℕ) → LimitIsExact place core f args limit }
{}

/// Where no type with clauses can be reached, a value is in a type exactly where the upward reading of
/// the type has it, and exactly where the downward one has it.
pub fn agree_without_clauses()
    ensures value { (place : ℕ → ℕ) (core : Core ℕ) → ReadingsAgree place core }
{}

/// What a contract asks of a value that is given a type is answered by membership, whatever was
/// spent before: a clause that faults isn't true.
pub fn answer_by_membership()
    ensures value { (place : ℕ → ℕ) (types : List (Alias ℕ)) → AnswersAsMembership place types }
{}

/// The test of a precondition says that it is met exactly where the number of arguments is right,
/// each is in its type, and each requires clause evaluates to true.
pub fn meet_exactly()
    ensures value { (place : ℕ → ℕ) (core : Core ℕ) (f : ℕ) (args : List Datum) → MetIsExact place core f args }
{}

/// What small programs do, and what that spends, row by row.
pub fn small_programs_do_so()
    ensures value { ProgramsDo }
{}

/// What each form of expression and statement does, with the kind and the place of each fault, row by
/// row.
pub fn each_form_does_so()
    ensures value { FormsDo }
{}
