//! What the fields of a core are, as a law. No function here does anything when it runs.
ghost use Rattle.std.specs.Prelude.{List};
ghost use Rattle.wy_ast.specs.SurfaceTree.{Decl};
ghost use Rattle.wy_gen_laws.specs.wy_code_spec.compiled.Fields.{HasFields};
ghost use Rattle.wy_core.specs.CoreSeen.{seen_core};
ghost use Rattle.wy_core.specs.declared.declarations.Core.{Core};
ghost use Rattle.wy_gen_sources.specs.source_ints.SourceFields.{FieldsAreNames};
ghost use Rattle.wy_names.specs.Named.{IsNamed};

/// Where each name of a field in a program is a name, so is each in its core, and those of each record
/// rise.
pub fn a_named_core_has_fields()
    ensures fields { (ds : List Decl) (core : Core) → FieldsAreNames ds → IsNamed ds core → HasFields (seen_core core) }
{}
