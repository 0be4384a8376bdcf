//! The cores of programs with names, and so of each source: variables are declared once, and types have a variable exactly
//! where they have clauses.
//!
//! docs/how/SOUNDNESS.md says where this is asked.
ghost use Rattle.wy_sound.specs.sources.Cores.{NamedDeclareOnce, NamedHaveVariables, SpelledAreSourced};

/// Each function and method of a core that names give declares each of its variables once.
pub fn named_routines_declare_once()
    ensures once { NamedDeclareOnce }
{}

/// Where each type as it is written has a variable exactly where it has clauses, so has each type of the core.
pub fn named_types_have_variables()
    ensures variables { NamedHaveVariables }
{}

/// The core of each program that bytes spell has both.
pub fn the_core_of_a_source_is_sourced()
    ensures sourced { SpelledAreSourced }
{}
