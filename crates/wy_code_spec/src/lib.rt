//! What machine code means, and which code is that of a program, by definition.
//!
//! `step` has a machine's step on values, `tables` the tables that name types and fields by number, `compiled` the code of a program,
//! `numbered` and `ints` what holds of the numbers in it.
#![tactic(auto)]

pub mod compiled;
pub mod ints;
pub mod numbered;
pub mod step;
pub mod tables;
