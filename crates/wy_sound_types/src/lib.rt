//! Types at run time: tests of types, and membership, answer as types say by data that meet the formulas of all types.
//!
//! A clause of a type tests deeper types alone, so by the depth of clauses: what the clauses of a type owe makes them safe on data
//! of its definition, and their answers are what they denote. So no test of a type is a fault.
#![tactic(auto)]

mod law;
pub mod members;
pub mod sound_routines;

pub use law::{
    checks_are_right, clauses_of_types_are_quiet, clauses_of_types_meet, contracts_fit,
    membership_is_said, tests_are_right, types_are_read,
};
