//! What folding keeps.
ghost use Rattle.wy_term.specs.Sorts.{FoldingKeepsMeaning};

/// A folded term means what the term means, whatever its names stand for. It says nothing yet of a quantifier over a
/// range of at most 256 numbers, which is folded to its instances.
pub fn folding_keeps_meaning()
    ensures sound { FoldingKeepsMeaning }
{}
