//! What the steps of a valid certificate are.
ghost use Rattle.wy_prove_writable.specs.Trees.{ValidIsOneTree};

/// The steps of a valid certificate are those of one tree in prefix order, which the writer of certificates asks too.
pub fn valid_certificates_are_trees()
    ensures trees { ValidIsOneTree }
{}
