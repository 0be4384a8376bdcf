//! What a file of certificates shows of a program.
ghost use Rattle.wy_vc_laws.specs.shown.Truths.{CertifiedProgramsOweTruths, OwedConditionsMeetPremises};

/// Where a file of certificates has a valid one for each condition of a program, all its conditions are true, whatever
/// their names stand for. Nothing is asked of the program, since its conditions meet the premises of the laws on
/// certificates.
pub fn certified_programs_owe_truths()
    ensures premises { OwedConditionsMeetPremises }
    ensures holds { CertifiedProgramsOweTruths }
{}
