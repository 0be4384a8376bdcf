//! A large program made from a number, to measure the compiler with.
//!
//! `draws` has the numbers: a linear congruential generator modulo 2^48, whose high bits choose a template and a
//! constant for each function. `bodies` has the four templates, and `source` the functions, the last one that calls
//! each of them, and what it is run on. `law` has two sources written out, and the tree of which each source is the
//! printed text. Texts alone: the program is read like any other.
#![tactic(auto)]

mod bodies;
mod draws;
mod law;
mod source;

pub use law::{sources_are_as_shown, sources_are_printed_trees};
pub use source::{argument_text, entry, source_of};
