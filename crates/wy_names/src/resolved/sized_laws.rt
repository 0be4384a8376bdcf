//! What the core of a program without a fault is, as laws. No function here does anything when it runs.
ghost use Rattle.std.specs.Prelude.{◌<◌, List, length};
ghost use Rattle.wy_ast.specs.SurfaceTree.{Decl};
ghost use Rattle.wy_core.specs.CoreSeen.{seen_core};
ghost use Rattle.wy_core.specs.declared.declarations.Core.{Core};
ghost use Rattle.wy_core.specs.formed.Formed.{Formed};
ghost use Rattle.wy_core.specs.formed.Sizes.{IsSmall};
ghost use Rattle.wy_core.specs.formed.Wholes.{IsQuiet, Wholes};
ghost use Rattle.wy_names.specs.Named.{IsNamed};
ghost use Rattle.wy_names.specs.resolved.SourceLiterals.{SourceInts};
ghost use Rattle.wy_names.specs.resolved.SourceClauses.{HaveClauses};

/// Each whole expression of a core has at most 4,096 nodes and a height of at most 400, properties put in.
pub fn a_named_core_is_small()
    ensures small { (ds : List Decl) (core : Core) → HaveClauses ds → IsNamed ds core → Wholes IsSmall (seen_core core) }
{}

/// No quantifier of a core calls anything, properties put in.
pub fn a_named_core_is_quiet()
    ensures quiet { (ds : List Decl) (core : Core) → HaveClauses ds → IsNamed ds core → Wholes IsQuiet (seen_core core) }
{}

/// A core is formed, where its source has fewer than 2^32 declarations, its numbers are `int`s and each of its
/// properties has a clause, as of each program that was read.
pub fn a_named_core_is_formed()
    ensures formed { (ds : List Decl) (core : Core) → length ds < 4294967296 → SourceInts ds → HaveClauses ds → IsNamed ds core → Formed (seen_core core) }
{}
