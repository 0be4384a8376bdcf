//! What the certificates of real programs are judged to be.
ghost use Rattle.wy_check_laws.specs.reread.RealExamples.{RealCertificates};

/// Each certificate is valid, or has its first bad step at the number that is told; the answers come from an independent
/// program.
pub fn real_certificates_are_judged()
    ensures rows { RealCertificates }
{}
