//! Nothing dead is kept: in the code of a program a register that holds a list or a record is live at its frame's place.
//!
//! `specs/code/Alive` says when a register is live at a place of code, and `specs/code/Dead` what the law asks of a program.
ghost use Rattle.wy_gen_sources.specs.code.Safe.{SafeRunsKeepNothing};
ghost use Rattle.wy_gen_sources.specs.code.Dead.{NothingDeadIsKept};

/// Where code is safe from each routine's entry on, whatever its arguments, then in each run of it, whenever the next
/// instruction of a frame is no `Clear`, each register of the frame that holds a list or a record is live at the frame's place.
pub fn runs_of_safe_code_keep_nothing_dead()
    ensures keep { SafeRunsKeepNothing }
{}

/// In each run of the code of a formed program, on whatever arguments, whenever the next instruction of a frame is no `Clear`,
/// each register that holds a list or a record, of a variable or of a value, is live at the frame's place: some path of the code
/// from there reads it before it is changed. The parameters are numbered in order, each type with clauses has a variable, and no
/// variable of a quantifier has the number of a declared one.
pub fn nothing_dead_is_kept()
    ensures keep { NothingDeadIsKept }
{}
