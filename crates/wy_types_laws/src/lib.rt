//! Laws of types: what the questions about types say of the values of the language.
//!
//! `asked_types` has questions about normal types, `asked_parts` those about their parts and updates, `parts` what a value's part is of.
//! There is no code here.
#![tactic(auto)]

pub mod asked_parts;
pub mod asked_types;
pub mod parts;
