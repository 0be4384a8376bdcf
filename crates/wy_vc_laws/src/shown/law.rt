//! What is known of certificates that were read.
ghost use Rattle.wy_vc_laws.specs.shown.ReadSorted.{ReadsSorted};

/// Each certificate of a file that is read splits on formulas alone, and its terms have parts of the sorts that their
/// places want.
pub fn certificates_are_read_sorted()
    ensures sorted { ReadsSorted }
{}
