//! Which of several faults is given, as a law.
ghost use Rattle.std.specs.Prelude.{List, None};
ghost use Rattle.wy_names_scope.specs.declared.fault.Fault.{Fault as SomeFault};
ghost use Rattle.wy_names.specs.LeastFaults as spec;

/// Of faults noted one after the other, in whatever order, the one left stands at the least place, of several
/// at one place it is the first of `NameFault`. Each pass of `resolve` notes its faults so.
pub fn the_least_fault_is_left()
    ensures { (fs : List SomeFault) → spec.Gives fs (spec.all_noted None fs) }
{}
