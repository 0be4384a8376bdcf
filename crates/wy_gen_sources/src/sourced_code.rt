//! The core of each source is as the law on code asks.
//!
//! docs/how/CODE.md says where this is asked.
ghost use Rattle.wy_gen_sources.specs.sourced_code.Cores.{SpelledAreAsCodeAsks};

/// The core of each program that bytes spell is as the law on code asks: its parameters have the first numbers, in order, and a type
/// without a variable has no clauses.
pub fn the_core_of_a_source_is_as_code_asks()
    ensures asked { SpelledAreAsCodeAsks }
{}
