//! What is proved of printed texts: a printed program is read again as the program that it was.
//!
//! `round` has programs, `spelled_types` the types that a source spells. There is no code here.
#![tactic(auto)]

pub mod round;
pub mod spelled_types;

pub use wy_parse_front;
