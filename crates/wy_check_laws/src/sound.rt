//! Valid certificates show their conditions: whatever made a certificate, its condition is true of all data.
//!
//! The definition of validity is that of wy_check_spec. The proof of the law goes step by step, for all kinds of step.
ghost use Rattle.wy_check_laws.specs.sound.Soundness.{ValidImpliesTrue};

/// A condition with a valid certificate is true of all data and whole numbers: where all its hypotheses hold, its goal
/// holds.
pub fn valid_certificates_show_their_conditions()
    ensures sound { ValidImpliesTrue }
{}
