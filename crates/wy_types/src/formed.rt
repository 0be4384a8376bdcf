//! The declared types of a formed core are such as `wy_types` asks of those that questions are put about.
//!
//! `laws` has the one law: their recursion passes through records or arrays in the sense of `wy_types`.
ghost use Rattle.std.specs.Prelude.{ℕ};
ghost use Rattle.wy_core.specs.CoreTree.{Core};
ghost use Rattle.wy_core.specs.formed.Bound.{Bound};
ghost use Rattle.wy_core.specs.formed.Recursion.{Recursion};
ghost use Rattle.wy_types.specs.Names.{names_in};
ghost use Rattle.wy_types.specs.Recursion.{RecurThroughParts};

/// The declared types of a core that is bound, and whose types recur through records or arrays, can be put
/// in an order in which the names outside of these go back, as each question about types asks.
pub fn types_of_a_formed_core_recur_through_parts()
    ensures ordered { (core : Core ℕ) → Bound core → Recursion core → RecurThroughParts (names_in core) }
{}
