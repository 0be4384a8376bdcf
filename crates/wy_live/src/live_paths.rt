//! Last uses by paths.
//!
//! A path is what happens on one way through a body, in order: variables are used, and variables are assigned. `specs/Events`
//! has paths, `specs/Through` those through each expression and each statement, `specs/Behind` those that follow a use. The
//! law in `laws` says that the uses which `wy_live` marks are those behind which no path uses the variable before it assigns
//! it.
ghost use Rattle.std.specs.Prelude.{Bool, List, ℕ};
ghost use Rattle.wy_core.specs.CoreTree.{Core};
ghost use Rattle.wy_live.specs.LastUses.{AreLast};
ghost use Rattle.wy_live.specs.live_paths.Behind.{AreLastOnPaths};

/// The marks of last uses are those by paths: a use is the last exactly where no path from there uses the variable before it
/// assigns it.
pub fn last_uses_are_those_of_paths()
    ensures paths { (core : Core ℕ) (marks : List Bool) → AreLast core marks → AreLastOnPaths core marks }
    ensures marked { (core : Core ℕ) (marks : List Bool) → AreLastOnPaths core marks → AreLast core marks }
{}
