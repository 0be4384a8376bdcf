//! Nothing dead is kept in the code of a program with names.
//!
//! What `code` asks of a core besides that it is formed, each core that names give has.
ghost use Rattle.wy_gen_sources.specs.programs.NamedCounters.{NamedCountersAreOwn};
ghost use Rattle.wy_gen_sources.specs.programs.NamedKeep.{NamedKeepNothingDead};

/// In the core of a program with names no variable of a quantifier that is run has the number of a parameter or of a variable
/// that a statement declares.
pub fn named_counters_are_own()
    ensures own { NamedCountersAreOwn }
{}

/// In each run of the code of a program with names, on whatever arguments, whenever the next instruction of a frame is no
/// `Clear`, each register that holds a list or a record, of a variable or of a value, is live at the frame's place.
pub fn named_programs_keep_nothing_dead()
    ensures keep { NamedKeepNothingDead }
{}
