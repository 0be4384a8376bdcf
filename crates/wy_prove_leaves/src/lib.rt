//! Certificates of the search's closed leaves: by classes of equal terms, and by sums of what is known of numbers.
//!
//! `linked` closes a node whose classes clash, `stated_sums` one that elimination refutes.
#![tactic(auto)]

pub mod linked;
pub mod stated_sums;

pub use wy_lin_eliminate::common;
