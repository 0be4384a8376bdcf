//! What verdicts show.
ghost use Rattle.wy_check.specs.Shown.{SuppliedIsCertified, SuppliedIsTrue};

/// The verdict on each condition of a list is that a valid certificate was supplied exactly where each condition has a
/// valid certificate in the file, whatever bytes this has.
pub fn supplied_conditions_are_certified()
    ensures exactly { SuppliedIsCertified }
{}

/// Where it is so, all conditions of the list are true, whatever their names stand for.
pub fn supplied_conditions_hold()
    ensures sound { SuppliedIsTrue }
{}
