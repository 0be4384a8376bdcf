//! What is read of what was written.
ghost use Rattle.wy_check_laws.specs.reread.Writable.{ReadsWhatIsWritten};

/// The text of certificates is read as these certificates, where their terms are folded and of their sorts, their numbers
/// are within their ranges, each is complete, and each is for another condition. `true` and `false` as arguments of a fact
/// are data, no formulas.
pub fn written_certificates_are_read()
    ensures read { ReadsWhatIsWritten }
{}
