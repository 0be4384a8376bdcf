//! What `in` means in a condition is settled: where the named types that it lists are grounded, exactly one set of data
//! for each of them meets their formulas.
//!
//! `specs/Readings.antt` says what a reading of `in` is, and when a condition is true by its readings.
ghost use Rattle.std.specs.Prelude.{ℕ, nat_lt, List, [], Bool};
ghost use Rattle.wy_term.specs.wy_value.Datum.{Datum};
ghost use Rattle.wy_term.specs.Term.{leaf, any_of};
ghost use Rattle.wy_term.specs.Meaning.{Names};
ghost use Rattle.wy_term.specs.Condition.{Entry, Condition, AreUnfolded, HoldsAlways};
ghost use Rattle.wy_term.specs.Unfolding.{Question, IsFounded, AreGrounded};
ghost use Rattle.wy_term_subst.specs.grounded.Readings.{IsReading, AlikeOn, HoldsByReadings};
ghost use Rattle.wy_term_subst.specs.grounded.Chains.{chains};

/// Whatever the names stand for, the listed types have a reading: sets of data that meet their formulas, while each type
/// that isn't listed keeps the set that it has.
pub fn listed_types_have_a_reading()
    ensures { (types : List Entry) → AreGrounded types → (names : Names) → (members : ℕ → Datum → Bool) × IsReading types names members }
{}

/// Any two that meet the formulas agree on each listed type at every datum, also where their names stand for different
/// data and numbers, and where they disagree on types that aren't listed.
pub fn formulas_leave_one_reading()
    ensures { (types : List Entry) → AreGrounded types → (names others : Names) → AreUnfolded names types → AreUnfolded others types → AlikeOn types names others }
{}

/// A condition is true exactly where it is true by the one reading that each choice of data, numbers and types that
/// aren't listed has.
pub fn truth_is_by_readings()
    ensures always { (c : Condition) → AreGrounded c.types → HoldsAlways c → HoldsByReadings c }
    ensures by_readings { (c : Condition) → AreGrounded c.types → HoldsByReadings c → HoldsAlways c }
{}

/// The listed types make no false formula true: `or` of nothing, without hypotheses, is no true condition.
pub fn nothing_false_holds_always()
    ensures { (types : List Entry) → AreGrounded types → HoldsAlways (record { hyps = []; goal = leaf any_of; types = types }) → ⊥ }
{}

/// Where each question has a number, the order by these numbers has no endless descents.
pub fn orders_by_number_are_founded()
    ensures { (number : Question → ℕ) (q : Question) → IsFounded (λ p r. nat_lt (number p) (number r)) q }
{}

/// Recursive types can be grounded: the example's data are `null` and the records that lead on to a datum of the type.
pub fn a_recursive_type_is_grounded()
    ensures { AreGrounded chains }
{}
