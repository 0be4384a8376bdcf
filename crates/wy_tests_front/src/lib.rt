//! Tests of what no command shows: the example of a reader, and normal forms of types.
//!
//! They stand in one crate, since a crate with tests is proved twice.
#![tactic(auto)]

#[cfg(test)]
mod reading;
#[cfg(test)]
mod sources;
#[cfg(test)]
mod types;
