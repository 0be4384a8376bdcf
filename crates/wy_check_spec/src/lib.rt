//! What a valid certificate is, by definition.
//!
//! `judge` has when a node of formulas is refuted at once, `valid` the steps of certificates and what they show.
#![tactic(auto)]

pub mod judge;
pub mod valid;

pub use wy_facts::{
    Taken, made_of, new_number, none_taken, parts_of, subst, take_numbers, with_parts,
};
pub use wy_lin::{Cond, Form, Kind, NoMemory, Node, Quantifier, Terms, combine, form};
