//! What the numbers in code are, as a law. No function here does anything when it runs.
ghost use Rattle.std.specs.Prelude.{ℕ};
ghost use Rattle.wy_code_spec.specs.ints.Loadable.{IsLoadable};
ghost use Rattle.wy_code_spec.specs.compiled.Fields.{HasFields};
ghost use Rattle.wy_code_spec.specs.compiled.Programs.{code_of};
ghost use Rattle.wy_core.specs.CoreTree.{Core};
ghost use Rattle.wy_core.specs.formed.Literals.{Ints};

/// Where the literals of a program are `int`s and its fields have names, its code is such as a machine takes.
pub fn the_code_of_a_program_is_loadable()
    ensures loadable { (core : Core ℕ) → HasFields core → Ints core → IsLoadable (code_of core) }
{}
