//! The value semantics: what programs do, by which every promise about them is measured.
//!
//! It is a set of definitions in `specs/`, and no code. `Meter` has the ways in which an evaluation
//! ends and what it spends: ticks in code, turns in contracts, bytes printed. `Expressions`,
//! `Statements` and `Evaluation` say what each form does on values that are copied, with each
//! contract checked. `TypeTests` has the tests of types visit by visit, `Membership` says which
//! values are in a type, `Readings` where that is the upward and the downward reading of wy_types, and
//! `Precondition` whether arguments meet a function. `Programs` and `Forms` show small programs and
//! what they do. `laws` has what holds of all of them.
#![tactic(auto)]

pub mod kept;
mod laws;

pub use laws::{
    agree_without_clauses, answer_by_membership, each_form_does_so, grow_with_ticks,
    have_one_ending, meet_exactly, small_programs_do_so, spend_a_limit_exactly,
};
