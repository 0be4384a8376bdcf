//! What an operation on data has to do with its term, and with the goals that are owed for it.
//!
//! The value semantics (wy_sem) does an operation on data; the conditions (wy_vc_spec) have a term for what it gives, and
//! goals for what may go wrong. Where the operands are of the kinds that typing promises, the operation ends with what the
//! term means exactly where all of the goals hold, and is a fault exactly where one of them doesn't. `specs/operations/Kinds` has the
//! kinds, `specs/operations/Agreement` the statements, `specs/operations/Updates` what is said of updates along paths.
ghost use Rattle.wy_sound_terms.specs.operations.Agreement.{EarlyAgree, OperatorsAgree, OthersAgree};
ghost use Rattle.wy_sound_terms.specs.operations.Updates.{UpdatesAgree};

/// An operator on two operands that both were evaluated, of the kinds that it takes: where its goals hold (range, divisor) it
/// ends with the datum that its term means, and where one of them doesn't hold it is a fault.
pub fn operators_agree()
    ensures agree { OperatorsAgree }
{}

/// `&&` behind a false left operand and `||` behind a true one end with what their terms mean, and owe nothing.
pub fn early_operators_agree()
    ensures agree { EarlyAgree }
{}

/// So do negation, denial, the length of an array, an element, a field, and an array of copies.
pub fn other_operations_agree()
    ensures agree { OthersAgree }
{}

/// The term of a variable with another value at the end of a path means the updated value, where the terms along the path mean
/// what stands there, each index is that of an item, and each record has the field, its names rising.
pub fn updates_agree()
    ensures agree { UpdatesAgree }
{}
