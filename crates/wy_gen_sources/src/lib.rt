//! What is proved of code that was made of a source: its numbers, its names, what it does, and that its runs keep nothing dead.
//!
//! There is no code here.
#![tactic(auto)]

pub mod code;
pub mod named_programs;
pub mod programs;
pub mod source_ints;
pub mod sourced_code;
