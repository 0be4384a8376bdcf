//! The code of a program that is well typed, its last uses, and its listing.
//!
//! Code goes by the core alone: its types say nothing about it. So each call here is one of this crate or
//! `wy_live` on the core of the typed program, with the same promises.

mod text;
mod typed;

pub use crate::NoMemory;
pub use text::listing;
pub use typed::{generate, last_uses};
