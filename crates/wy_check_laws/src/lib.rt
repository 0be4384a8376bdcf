//! Laws of certificates: they show what is true, and what is written of one is read again.
//!
//! `sound` has the first, `reread` the second. There is no code here.
#![tactic(auto)]

pub mod reread;
pub mod sound;
