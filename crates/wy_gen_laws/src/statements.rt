//! The code of statements and of routines does what these do.
//!
//! docs/how/CODE.md says how the law on whole programs comes of such parts. `specs/statements/Led` says where the run of a statement
//! leads, `specs/statements/Routines` what is asked of functions and methods, and `specs/statements/Still` which runs spend nothing.
ghost use Rattle.wy_gen_laws.specs.statements.Led.{StatementsAreLed};
ghost use Rattle.wy_gen_laws.specs.statements.Routines.{RoutinesAreFollowed};

/// The run of the code of a block follows the block, where the code of its expressions follows these and the routines that
/// it calls follow their calls: declarations, assignments, also of parts of a variable, `if`, loops with `break` and
/// `continue`, assertions, calls, prints, `return` and `fail`. It comes behind the code, to the end of the loop around, or
/// to that loop's step back, with what is live there in its registers, or gives its result to the caller; within 16 steps a
/// tick.
pub fn statements_are_led()
    ensures led { StatementsAreLed }
{}

/// Where the parts of each body follow as soon as calls do, calls follow: the run of a routine from its first instruction on,
/// with the arguments in its first registers, gives its callers what the call gives, however deep calls nest.
pub fn routines_are_followed()
    ensures followed { RoutinesAreFollowed }
{}
