//! What the definition says.
ghost use Rattle.wy_search_spec.specs.Examples.{SmallSearches};
ghost use Rattle.wy_search_spec.specs.Programs.{FoundWithin, OpenLeaves};
ghost use Rattle.wy_search_spec.specs.Tree.{OneVerdict};

/// A search has one verdict.
pub fn one_verdict()
    ensures { OneVerdict }
{}

/// Small conditions end so.
pub fn small_searches_end_so()
    ensures { SmallSearches }
{}

/// Conditions of programs that stay open do so at these leaves.
pub fn open_leaves_are_these()
    ensures { OpenLeaves }
{}

/// Conditions of a program that are found end with so many leaves, and at a lesser budget it is spent.
pub fn leaves_are_these()
    ensures { FoundWithin }
{}
