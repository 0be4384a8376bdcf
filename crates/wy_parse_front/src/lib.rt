//! The front: from the bytes of a source to its program, or to why it is none, and where.
//!
//! `reading` has the call [`read`]: tokens, and then the program that they spell. `fault` has what is
//! refused and the word for it, and `place` turns an offset into a line and a column.
#![tactic(auto)]

mod fault;
pub mod lines;
mod place;
mod reading;

pub use fault::{SourceFault, is_no_memory, offset, word};
pub use place::{Place, locate};
pub use reading::read;
