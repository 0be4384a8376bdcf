//! Graphs on numbers: what is reached, which cycles there are, and what each part of a program reaches.
//!
//! `closure` closes a set under clauses, `cycles` has walks, orders and certificates of cycles, and `reach` what each routine of a
//! program writes, reads and is entered by.
#![tactic(auto)]

pub mod closure;
pub mod cycles;
pub mod reach;
