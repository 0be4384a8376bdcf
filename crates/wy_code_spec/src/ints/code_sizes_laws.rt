//! How much code there is, as a law. No function here does anything when it runs.
ghost use Rattle.std.specs.Prelude.{◌+◌, ◌*◌, ◌≤◌, length, ℕ};
ghost use Rattle.wy_code_spec.specs.ints.Ticks.{alias_ticks, core_ticks, instructions, routine_ticks};
ghost use Rattle.wy_code_spec.specs.compiled.Programs.{body_routine, code_of, type_routine};
ghost use Rattle.wy_core.specs.CoreTree.{Alias, Core, Routine};
ghost use Rattle.wy_code_spec.specs.declared.tables.context.Context.{Context};

/// The code of a function or method, and that of a test of a declared type, has at most 16 instructions for each tick of what
/// stands in it, and 16 more; so has the code of a program for each of its routines.
pub fn code_is_small()
    ensures bodies { (c : Context) (r : Routine ℕ) → length (body_routine c r).body ≤ 16 * routine_ticks r + 16 }
    ensures types { (c : Context) (a : Alias ℕ) → length (type_routine c a).body ≤ 16 * alias_ticks a + 16 }
    ensures programs { (core : Core ℕ) → instructions (code_of core).routines ≤ 16 * core_ticks core + 16 * length (code_of core).routines }
{}
