//! What the conditions of a program ask of its declarations.
//!
//! `declared` tells of each named type whether a formula writes it out. `program` puts this together with the numbers that expressions
//! have in the walk of flow typing, and with what this walk says of them: whether an expression is a number.

mod declared;
mod program;

pub use declared::Declared;
pub use program::{Called, Callee, Program};
