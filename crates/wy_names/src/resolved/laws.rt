//! Which answers a program may have, as laws. No function here does anything when it runs.
ghost use Rattle.std.specs.Prelude.{◌≡◌, ℕ, List, Some};
ghost use Rattle.wy_ast.specs.SurfaceTree.{Decl};
ghost use Rattle.wy_core.specs.CoreSeen.{seen_core};
ghost use Rattle.wy_core.specs.declared.declarations.Core.{Core};
ghost use Rattle.wy_names.specs.NameFaults.{fault_named};
ghost use Rattle.wy_names.specs.Named.{Judges, IsNamed, IsRefused};
ghost use Rattle.wy_names.specs.declared.name_fault.NameFault.{NameFault};
ghost use Rattle.wy_names_scope.specs.Faults.{Found};
ghost use Rattle.wy_names_scope.specs.declared.fault.Fault.{Fault};

/// A program has one fault to be given, or none, whichever order of its properties it is found by.
pub fn a_program_has_one_fault()
    ensures one { (ds : List Decl) (first second : List ℕ) (f g : Found) → Judges ds first f → Judges ds second g → f ≡ g }
{}

/// No program that has a core is refused.
pub fn a_named_program_is_not_refused()
    ensures apart { (ds : List Decl) (core : Core) (given : NameFault) → IsNamed ds core → IsRefused ds given → ⊥ }
{}

/// A program is refused in one way: with the same fault at the same place.
pub fn a_program_has_one_refusal()
    ensures one { (ds : List Decl) (given other : NameFault) → IsRefused ds given → IsRefused ds other → given ≡ other }
{}

/// A program in which any order of its properties finds a fault has no core, and that fault is the one
/// for which it is refused.
pub fn a_refused_program_has_its_fault()
    ensures own { (ds : List Decl) (order : List ℕ) (fault : Fault) (given : NameFault) → Judges ds order (Some fault) → IsRefused ds given → given ≡ fault_named fault }
{}

/// A program has one core, places included, whichever order of its properties it is made by.
pub fn a_program_has_one_core()
    ensures one { (ds : List Decl) (core other : Core) → IsNamed ds core → IsNamed ds other → seen_core core ≡ seen_core other }
{}
