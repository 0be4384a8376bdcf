//! Typed clauses fit the stores at which they are asked.
//!
//! `specs/fits/Fit` has the law.
ghost use Rattle.wy_sound_kinds.specs.fits.Fit.{TypedClausesFit};

/// Clauses that are typed, and that call nothing, fit each store in which the variables that they use have values of their types:
/// what they meet is of the kinds that they ask for, and their answers are truth values.
pub fn clauses_fit()
    ensures fit { TypedClausesFit }
{}
