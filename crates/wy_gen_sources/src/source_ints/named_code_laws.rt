//! What the code of a program is, as a law. No function here does anything when it runs.
ghost use Rattle.std.specs.Prelude.{All, List, length};
ghost use Rattle.wy_ast.specs.SurfaceTree.{Decl};
ghost use Rattle.wy_gen_laws.specs.wy_code_spec.compiled.Programs.{code_of};
ghost use Rattle.wy_gen_laws.specs.wy_code_spec.compiled.Ranges.{CallsBelow};
ghost use Rattle.wy_core.specs.CoreSeen.{seen_core};
ghost use Rattle.wy_core.specs.declared.declarations.Core.{Core};
ghost use Rattle.wy_gen_sources.specs.source_ints.SourceFields.{FieldsAreNames};
ghost use Rattle.wy_names.specs.Named.{IsNamed};
ghost use Rattle.wy_value.specs.Shapes.{IsShapes};

/// In the code of a program without a fault of names each call is one of a routine of that code; and
/// where each name of a field in the program is a name, its table of shapes is one that a heap takes.
pub fn the_code_of_a_named_core_is_whole()
    ensures calls { (ds : List Decl) (core : Core) → IsNamed ds core → All (CallsBelow (length (code_of (seen_core core)).routines)) (code_of (seen_core core)).routines }
    ensures shapes { (ds : List Decl) (core : Core) → FieldsAreNames ds → IsNamed ds core → IsShapes (code_of (seen_core core)).shapes }
{}
