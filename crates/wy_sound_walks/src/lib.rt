//! Soundness of the walk over expressions and clauses: what is evaluated is what its term means.
//!
//! There is no code here; each module has one step of the way.
#![tactic(auto)]

pub mod clauses;
pub mod depends;
pub mod expressions;
pub mod heads;
pub mod joins;
pub mod points;
