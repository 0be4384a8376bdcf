//! Types, declared types and expressions once more, equal to the first ones, places included.

pub mod alias_copies;
pub mod expr_copies;
pub mod type_copies;
