//! What a file of certificates shows.
ghost use Rattle.wy_vc_laws.specs.shown.Certified.{ReadCertificateShows, CertifiedConditionsHold, KeptCertificateShows};

/// Where certificates were read from a file, each condition for which one of them is valid is true of all data and whole
/// numbers; so are all conditions of a list of which each has a valid certificate under its number, from 1; and so is the
/// condition of the code for which a certificate of the code is valid.
pub fn certificate_files_show_their_conditions()
    ensures one { ReadCertificateShows }
    ensures list { CertifiedConditionsHold }
    ensures kept { KeptCertificateShows }
{}
