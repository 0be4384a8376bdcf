//! The texts that are written of a source: its program, laid out anew, and the listing of its code.
//!
//! `writing` has the call [`text_of`]: it reads the source as far as the text needs, and prints what was read. `kind` has
//! which texts there are.
//!
//! The reading of a source is passed on, so that who needs both names this crate alone.

mod kind;
mod writing;

pub use crate::{Refusal, is_no_memory, offset, read_program, word};
pub use kind::Kind;
pub use writing::text_of;
