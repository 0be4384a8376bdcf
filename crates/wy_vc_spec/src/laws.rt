//! What the definition comes to for small programs.
ghost use Rattle.wy_vc_spec.specs.Examples.{SmallProgramsOwe};

/// What small programs owe.
pub fn small_programs_owe()
    ensures { SmallProgramsOwe }
{}
