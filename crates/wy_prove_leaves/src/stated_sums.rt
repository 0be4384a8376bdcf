//! Nodes closed by elimination: a cut for each form of a literal whose variables are replaced, and then the steps of elimination.
//!
//! `classed` has the terms present in a node and their classes. `literals` takes the form of each literal of the node, `taking` replaces
//! its variables, by bounds that are literals (`bounds`), and `stated` keeps what is left, each form beside the number of a literal that has
//! it: `cutting` writes the cuts which state those. Once all forms are there, `steps` writes the steps of elimination, their
//! multipliers beside the numbers of literals (`pairs`). `refuting` puts these together.

mod bounds;
mod classed;
mod cutting;
mod literals;
mod pairs;
mod refuting;
mod stated;
mod steps;
mod taking;

pub use refuting::close_by_elimination;
