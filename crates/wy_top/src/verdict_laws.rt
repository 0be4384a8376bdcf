//! What verdicts show.
ghost use Rattle.wy_top.specs.Shown.{ClosedIsTrue, ReadIsTrue};

/// Where for each condition of a list a valid certificate was supplied, or its search closed all leaves, all of them are true of all
/// data and whole numbers.
pub fn closed_conditions_hold()
    ensures closed { ClosedIsTrue }
    ensures read { ReadIsTrue }
{}
