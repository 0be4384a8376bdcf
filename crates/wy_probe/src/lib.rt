//! A probe for faults: arguments on which a program really faults.
//!
//! For each parameter `candidates` has the values that are tried, a table by the parameter's type, which `lists`, `arrays`
//! and `records` put together, and of which `tables` keeps those of declared types; `parameters` has the call for all of them.
//! `tuples` puts one value of each parameter together, one tuple after another, the first values first. `trials` tells of one
//! tuple what it comes to: whether it meets the precondition, and whether the value semantics faults on it. `probing` has the
//! public call, which goes through the tuples up to the first that faults.
#![tactic(auto)]

mod arrays;
mod candidates;
mod laws;
mod lists;
mod parameters;
mod probing;
mod records;
mod tables;
mod trials;
mod tuples;

pub use laws::{there_is_one_finding, tuples_come_in_order};
pub use probing::{ProbeEnd, probe};
pub use tuples::{first_tuple, has_empty, next_tuple_of};
