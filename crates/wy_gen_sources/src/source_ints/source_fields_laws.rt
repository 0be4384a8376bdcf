//! What the fields of a program are that was read, as a law. No function here does anything when it runs.
ghost use Rattle.std.specs.Prelude.{List, map, ℕ};
ghost use Rattle.wy_ast.specs.SurfaceSeen.{seen_decl};
ghost use Rattle.wy_ast.specs.declared.declarations.Program.{Program};
ghost use Rattle.wy_gen_sources.specs.source_ints.SourceFields.{FieldsAreNames};
ghost use Rattle.wy_print_laws.specs.wy_parse_front.Front.{Spells};

/// Each name of a field in a program that a source spells is a name.
pub fn a_source_that_is_read_has_names_of_fields()
    ensures fields { (bytes : List ℕ) (program : Program) → Spells bytes program → FieldsAreNames (map seen_decl program.decls) }
{}
