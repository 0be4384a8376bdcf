//! The code of an expression does what the expression does, where the code of calls and of tests of types does what these do.
//!
//! docs/how/CODE.md says how the law on whole programs comes of such parts.
ghost use Rattle.wy_gen_laws.specs.expressions.Evaluated.{ExpressionsAreEvaluated};

/// The run of the code of an expression follows its evaluation, where the code of calls and of tests of types follows these:
/// its value comes into its register within 16 steps a tick, the variables in scope that are live behind it stay in theirs,
/// and so do the values of the expressions around it. So do expressions from left to right. Where its value comes straight into
/// the register of a variable that isn't live behind it, that register has the value.
pub fn expressions_are_evaluated()
    ensures evaluated { ExpressionsAreEvaluated }
{}
