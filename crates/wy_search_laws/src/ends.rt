//! Every search ends: its definition, which asks for as many turns as it takes, has a verdict for each condition and budget.
//!
//! The definition is that of `wy_search_spec`.
ghost use Rattle.wy_search_laws.specs.ends.Ends.{EverySearchEnds};

/// The search of a condition of sorted formulas, as it is defined, has a verdict at each budget of leaves.
pub fn every_search_ends()
    ensures ends { EverySearchEnds }
{}
