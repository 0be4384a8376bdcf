//! Products of bounds: what the product of two bounds states.
//!
//! `whole` has whole numbers by sign and size, which go beyond those of 128 bits, `multiples` tells whether the coefficients of
//! one form are a number's multiple of those of another, `affine` finds the numbers by which one form comes of another, and
//! `product` makes the formula that the product of two literals' forms states. The definitions are those of `wy_check_spec`.
//!
//! The checker of certificates: whether a certificate is valid for a condition.
//!
//! `bringing` copies a step's terms into the condition's list, `steps` says of each kind of step to which nodes it leads
//! (`outcome`), `turning` takes the nodes that are still to be closed from one step to the next, and `checking` walks through
//! the steps. The definition of validity is that of `wy_check_spec`.
//!
//! Verdicts: which conditions of a program have a valid certificate.
//!
//! `verdict` has what is known of a condition, and `accepting` judges the certificates that were given for a list of
//! conditions. `law` says what the verdicts show: where each condition of a list has a valid certificate of a file, all of
//! them are true.
#![tactic(auto)]

mod accepting;
mod affine;
mod bringing;
mod checking;
mod law;
mod multiples;
mod outcome;
mod product;
mod steps;
mod turning;
mod verdict;
mod whole;

pub use accepting::verdicts;
pub use affine::{Affine, relation};
pub use checking::{Checked, check};
pub use law::{supplied_conditions_are_certified, supplied_conditions_hold};
pub use product::product_stated;
pub use verdict::Verdict;
