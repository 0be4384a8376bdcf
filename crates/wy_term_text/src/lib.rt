//! Terms as text: how they are shown, how they are read, and that what is shown is read again.
//!
//! `show` writes terms, `spell` reads them, `reread` has the laws of both together.
#![tactic(auto)]

pub mod reread;
pub mod show;
pub mod spell;

pub use wy_term::{NoMemory, Terms};
