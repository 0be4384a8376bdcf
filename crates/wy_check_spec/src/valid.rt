//! Validity of certificates: which steps are valid at a node, to which nodes they lead, and which certificates show their
//! conditions.
//!
//! The definitions are in specs/; `law` says what is true of them.
ghost use Rattle.wy_check_spec.specs.valid.Examples.{SmallCertificates};
ghost use Rattle.wy_check_spec.specs.valid.Plain.{PlainIsUnchanged};
ghost use Rattle.wy_check_spec.specs.valid.Trees.{ValidIsATree};

/// A certificate is valid exactly where its steps are those of a tree, in prefix order, in which each step is valid at its
/// node and has a tree below it for each node to which it leads.
pub fn valid_certificates_are_trees()
    ensures trees { ValidIsATree }
{}

/// A certificate without products is valid, or has its first bad step, exactly as if there were no products.
pub fn plain_certificates_are_unchanged()
    ensures unchanged { PlainIsUnchanged }
{}

/// One valid certificate and one that isn't, with the number of its first bad step, for each kind of step.
pub fn small_certificates_are_judged()
    ensures rows { SmallCertificates }
{}
