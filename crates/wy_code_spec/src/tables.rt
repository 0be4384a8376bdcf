//! The names of fields and the shapes of records in a program, and their numbers.
//!
//! `tables` meets them in the order of the source, and `context` is what code is made by;
//! `targets` says what the number of a routine calls. What the table of a program is stands in
//! `specs/Tables`.

mod context;
mod shape;
mod table;
mod tables;
mod targets;

pub use context::Context;
pub use table::{Table, name_number};
pub use tables::{context_of, shape_number};
pub use targets::{Target, called};
