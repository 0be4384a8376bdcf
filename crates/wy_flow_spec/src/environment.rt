//! The types of variables at the points of a program.
//!
//! `shared` has a type that several variables and nodes have. `slots` has a type for each variable
//! that has one, and `environment` those at a point of the program, on which changes may lie. `constants` has
//! the types of literals and operators. Types
//! are seen without their places.

mod constants;
mod environment;
mod shared;
mod slots;

pub use constants::{bool_type, int_type, null_type, void_type};
pub use environment::Environment;
pub use shared::Shared;
pub use slots::{copy_slots, put_slot, slot_at};
