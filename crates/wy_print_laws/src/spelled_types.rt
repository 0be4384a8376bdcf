//! The types of a source: each has a variable exactly where it has clauses.
ghost use Rattle.std.specs.Prelude.{List, map, ℕ};
ghost use Rattle.wy_ast.specs.SurfaceSeen.{seen_decl};
ghost use Rattle.wy_ast.specs.declared.declarations.Program.{Program};
ghost use Rattle.wy_parse_front.specs.Front.{Spells};
ghost use Rattle.wy_print_laws.specs.spelled_types.SourceVariables.{HaveOwnVariables};

/// Each type of a program that bytes spell has a variable exactly where it has clauses.
pub fn a_spelled_type_has_a_variable_for_its_clauses()
    ensures variables { (bytes : List ℕ) (program : Program) → Spells bytes program → HaveOwnVariables (map seen_decl program.decls) }
{}
