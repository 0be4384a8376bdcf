//! Laws of the sources that are made. The functions here do nothing when they run.
ghost use Rattle.wy_top_big.specs.Rows.{AsShown};
ghost use Rattle.wy_top_big.specs.Tree.{IsPrinted};

/// The source of one function and of two, and two arguments, written out.
pub fn sources_are_as_shown()
    ensures { AsShown }
{}

/// The source is what `print` writes of a tree: of so many functions, each with a body and a number that the generator
/// draws behind the seed, and of the one that calls each of them.
pub fn sources_are_printed_trees()
    ensures printed { IsPrinted }
{}
