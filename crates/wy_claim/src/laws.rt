//! What holds in every schedule of the steps of all seats.
ghost use Rattle.wy_claim.specs.Schedule.{AlwaysAgree, NeverWraps, NeverTwice};

/// At every moment the counter and the seats agree: each number below the counter was drawn by exactly one seat,
/// the weights add up, and a seat that has not ended drew only pieces.
pub fn always_agree()
    ensures { AlwaysAgree }
{}

/// The counter never wraps.
pub fn never_wraps()
    ensures { NeverWraps }
{}

/// Two seats never draw one number.
pub fn never_twice()
    ensures { NeverTwice }
{}
