//! Answers of expressions are of the kinds that typing gives them.
//!
//! `specs/Bounded` says which data a program may hold, `specs/Ready` what a formed and assigned program gives of each expression,
//! `specs/Kinds` what is known of a store by the types of its variables and of an answer by the type of its expression.
#![tactic(auto)]

pub mod fits;
pub mod frames;
mod law;
pub mod suits;

pub use law::{answers_have_kinds, values_are_bounded};
