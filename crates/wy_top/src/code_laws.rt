//! What the code of a source is, as a law. No function here does anything when it runs.
ghost use Rattle.std.specs.Prelude.{List, ℕ};
ghost use Rattle.wy_gen_sources.specs.wy_code_spec.ints.Loadable.{IsLoadable};
ghost use Rattle.wy_gen_sources.specs.wy_code_spec.compiled.Programs.{code_of};
ghost use Rattle.wy_core.specs.CoreTree.{Core};
ghost use Rattle.wy_core.specs.Types.{Ty};
ghost use Rattle.wy_top_probe.specs.wy_top_source.texts.Sources.{IsProgram};

/// The code of the program that a source has is such as a machine takes.
pub fn the_code_of_a_source_is_loadable()
    ensures loadable { (bytes : List ℕ) → (core : Core ℕ) → (flow : List Ty) → IsProgram bytes core flow → IsLoadable (code_of core) }
{}
