//! What operations, numbers and formulas have to do with their terms.
//!
//! `operations` has operations on data, `numbers` their ranges, `formed` that each condition's formulas are of the sorts that they
//! are to be. There is no code here.
#![tactic(auto)]

pub mod formed;
pub mod numbers;
pub mod operations;
