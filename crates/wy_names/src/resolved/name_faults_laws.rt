//! Which fault a program is refused for, as laws. No function here does anything when it runs.
ghost use Rattle.std.specs.Prelude.{ℕ, List};
ghost use Rattle.wy_ast.specs.SurfaceTree.{Decl};
ghost use Rattle.wy_core.specs.declared.declarations.Core.{Core};
ghost use Rattle.wy_names.specs.resolved.Programs.{IsFirst, Shows};
ghost use Rattle.wy_names.specs.resolved.UsesShown.{InDecls, IsListed};
ghost use Rattle.wy_names.specs.Named.{IsNamed, IsRefused, scope_of, uses_of};
ghost use Rattle.wy_names.specs.declared.name_fault.NameFault.{NameFault};
ghost use Rattle.wy_names_recursion.specs.Endings.{IsOrder};
ghost use Rattle.wy_names_scope.specs.declared.fault.Fault.{Fault};
ghost use Rattle.wy_names_recursion.specs.declared.edges.Edge.{Edge};

/// The fault for which a program is refused is one that it shows, and none that it shows stands at a lesser
/// place, or at the same place with a lesser rank.
pub fn a_program_is_refused_for_its_first_fault()
    ensures first { (ds : List Decl) (order : List ℕ) (given : NameFault) → IsOrder ds (uses_of ds) order → IsRefused ds given → IsFirst ds order given }
{}

/// A program that has a core shows no fault.
pub fn a_named_program_shows_no_fault()
    ensures none { (ds : List Decl) (core : Core) (order : List ℕ) (f : Fault) → IsOrder ds (uses_of ds) order → IsNamed ds core → Shows ds order f → ⊥ }
{}

/// The uses by which types and properties are said to recur are those that the program has: each name of a type
/// in a type, outside or inside of records and arrays, each name of a type that a clause tests, and each use of a
/// property in a clause.
pub fn the_uses_listed_are_those_of_the_program()
    ensures program { (ds : List Decl) (e : Edge) → IsListed (uses_of ds) e → InDecls (scope_of ds) 0 ds e }
    ensures listed { (ds : List Decl) (e : Edge) → InDecls (scope_of ds) 0 ds e → IsListed (uses_of ds) e }
{}
