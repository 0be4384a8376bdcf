//! What an expression gives holds numbers that are `int`s and lists that arrays may be, where its variables do.
ghost use Rattle.wy_sem.specs.kept.Kept.{ExpressionsGiveValues};

/// Where each literal of an expression is an `int`, each variable that is set holds data whose numbers are `int`s and whose
/// lists are no longer than arrays may be, and so do results of calls on such arguments, the answer of the expression is such
/// a datum, at whatever number of ticks and turns.
pub fn expressions_give_values()
    ensures kept { ExpressionsGiveValues }
{}
