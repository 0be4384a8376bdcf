//! What the numbers of a program are that was read, as laws. No function here does anything when it runs.
ghost use Rattle.std.specs.Prelude.{List, map, ℕ};
ghost use Rattle.wy_ast.specs.SurfaceSeen.{seen_decl};
ghost use Rattle.wy_ast.specs.declared.declarations.Program.{Program};
ghost use Rattle.wy_core.specs.CoreSeen.{seen_core};
ghost use Rattle.wy_core.specs.declared.declarations.Core.{Core};
ghost use Rattle.wy_core.specs.formed.Formed.{Formed};
ghost use Rattle.wy_print_laws.specs.wy_parse_front.Front.{Spells};
ghost use Rattle.wy_names.specs.Named.{IsNamed};
ghost use Rattle.wy_names.specs.resolved.SourceLiterals.{SourceInts};

/// Each number in a program that a source spells is an `int`, and each code in its texts a byte.
pub fn a_source_that_is_read_has_ints_alone()
    ensures ints { (bytes : List ℕ) → (program : Program) → Spells bytes program → SourceInts (map seen_decl program.decls) }
{}

/// The core of each program that a source spells is formed.
pub fn the_core_of_a_source_is_formed()
    ensures formed { (bytes : List ℕ) → (program : Program) → (core : Core) → Spells bytes program → IsNamed (map seen_decl program.decls) core → Formed (seen_core core) }
{}
