//! Which starts the machine takes, as a law. No function here does anything when it runs.
ghost use Rattle.std.specs.Prelude.{ℕ, List};
ghost use Rattle.wy_gen_laws.specs.wy_code_spec.ints.Loadable.{IsLoadable};
ghost use Rattle.wy_gen_laws.specs.wy_code_spec.compiled.Programs.{code_of};
ghost use Rattle.wy_core.specs.CoreTree.{Core};
ghost use Rattle.wy_mach_run.specs.Running.{CanRun, Goes};
ghost use Rattle.wy_mach_run.specs.Starting.{Starts};
ghost use Rattle.wy_mach_run.specs.declared.parts.Start.{Start};

/// Where the code of a program is such as a machine takes, so is each start of it whose run never lacks a step.
pub fn starts_can_run()
    ensures can { (core : Core ℕ) → (name : List ℕ) → (arguments : List ℕ) → (s : Start) → IsLoadable (code_of core) → Starts core name arguments s → Goes s → CanRun s }
{}
