//! What elimination finds is right.
ghost use Rattle.std.specs.Prelude.{ℕ, List};
ghost use Rattle.wy_lin.specs.Linear.{Linear};
ghost use Rattle.wy_lin_eliminate.specs.Validity.{StepsRefute};

/// Where forms are refuted, the steps are valid over them: each sum fits 128 bits and names forms that stand before it with
/// multipliers of at least 1, each divisor is at least 2 and divides every coefficient of its sum, and the last sum is a
/// negative constant.
pub fn steps_refute()
    ensures { (forms : List (Linear ℕ)) → StepsRefute forms }
{}
