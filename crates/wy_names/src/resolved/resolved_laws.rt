//! What the core of a program without a fault is, as laws. No function here does anything when it runs.
ghost use Rattle.std.specs.Prelude.{◌≤◌, List, length};
ghost use Rattle.wy_ast.specs.SurfaceTree.{Decl};
ghost use Rattle.wy_core.specs.CoreSeen.{seen_core};
ghost use Rattle.wy_core.specs.declared.declarations.Core.{Core};
ghost use Rattle.wy_core.specs.formed.Bound.{Bound};
ghost use Rattle.wy_core.specs.formed.Calls.{Calls};
ghost use Rattle.wy_core.specs.formed.Literals.{Ints};
ghost use Rattle.wy_core.specs.formed.Recursion.{Recursion};
ghost use Rattle.wy_names.specs.Named.{IsNamed};
ghost use Rattle.wy_names.specs.resolved.SourceLiterals.{SourceInts};

/// The names of a core lead where they should: each variable, type, function and method is in scope at
/// each of its uses, each variable has one declaration there, the fields of records rise, calls and `return`
/// have what their declarations ask for, and `break` and `continue` stand in loops.
pub fn a_named_core_is_bound()
    ensures bound { (ds : List Decl) (core : Core) → IsNamed ds core → Bound (seen_core core) }
{}

/// The clauses of types, contracts, invariants and assertions of a core call nothing, properties put in, and
/// its functions call no method.
pub fn a_named_core_calls_what_it_may()
    ensures calls { (ds : List Decl) (core : Core) → IsNamed ds core → Calls (seen_core core) }
{}

/// Where each number of a program is an `int`, so is each of its core.
pub fn a_named_core_has_ints_alone()
    ensures ints { (ds : List Decl) (core : Core) → SourceInts ds → IsNamed ds core → Ints (seen_core core) }
{}

/// The recursion of the types of a core passes through records or arrays, and through no test of a clause,
/// properties put in.
pub fn a_named_core_recurs_through_parts()
    ensures recursion { (ds : List Decl) (core : Core) → IsNamed ds core → Recursion (seen_core core) }
{}

/// A core has no more declarations than its source.
pub fn a_named_core_declares_no_more()
    ensures few { (ds : List Decl) (core : Core) → IsNamed ds core → length (seen_core core) ≤ length ds }
{}
