//! What is true of each program that bytes spell, as laws. No function here does anything when it runs.
ghost use Rattle.std.specs.Prelude.{◌≤◌, ℕ, List, length, map};
ghost use Rattle.wy_ast.specs.SurfaceSeen.{seen_decl};
ghost use Rattle.wy_ast.specs.declared.declarations.Program.{Program};
ghost use Rattle.wy_core.specs.CoreSeen.{seen_core};
ghost use Rattle.wy_core.specs.declared.declarations.Core.{Core};
ghost use Rattle.wy_core.specs.formed.Formed.{Formed};
ghost use Rattle.wy_core.specs.formed.Sizes.{IsSmall};
ghost use Rattle.wy_core.specs.formed.Wholes.{IsQuiet, Wholes};
ghost use Rattle.wy_print_laws.specs.wy_parse_front.Front.{Spells};
ghost use Rattle.wy_names.specs.Named.{IsNamed};
ghost use Rattle.wy_names.specs.resolved.SourceLiterals.{SourceInts};
ghost use Rattle.wy_names.specs.resolved.SourceClauses.{HaveClauses};

/// Each property of a program that bytes spell has a clause.
pub fn a_spelled_program_has_clauses()
    ensures clauses { (bytes : List ℕ) (program : Program) → Spells bytes program → HaveClauses (map seen_decl program.decls) }
{}

/// A program that bytes spell has at most 4,096 declarations.
pub fn a_spelled_program_is_short()
    ensures short { (bytes : List ℕ) (program : Program) → Spells bytes program → length (map seen_decl program.decls) ≤ 4096 }
{}

/// Each whole expression of the core of a text is within the limits of size, properties put in, and no quantifier
/// calls anything.
pub fn the_core_of_a_text_is_small()
    ensures small { (bytes : List ℕ) (program : Program) (core : Core) → Spells bytes program → IsNamed (map seen_decl program.decls) core → Wholes IsSmall (seen_core core) }
    ensures quiet { (bytes : List ℕ) (program : Program) (core : Core) → Spells bytes program → IsNamed (map seen_decl program.decls) core → Wholes IsQuiet (seen_core core) }
{}

/// The core of a text is formed, where its numbers are `int`s and the codes of its texts bytes.
pub fn the_core_of_a_text_is_formed()
    ensures formed { (bytes : List ℕ) (program : Program) (core : Core) → Spells bytes program → SourceInts (map seen_decl program.decls) → IsNamed (map seen_decl program.decls) core → Formed (seen_core core) }
{}
