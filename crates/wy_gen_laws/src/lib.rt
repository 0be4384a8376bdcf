//! What it means that a run of the machine goes beside an evaluation, and the lemmas of it.
//!
//! `specs/Follows` has the relation: steps are bounded by ticks, and ticks by steps, so that it can be read in both
//! directions. `specs/Places` says which steps stand where in a routine, and `specs/Registers` what registers hold beside
//! a store. The lemmas in `proofs/` are for the laws above, one for each way in which an evaluation goes on and one for
//! each instruction.
#![tactic(auto)]

pub mod expressions;
mod law;
pub mod programs;
pub mod statements;
pub mod tests;

pub use law::placed_steps_stand;
