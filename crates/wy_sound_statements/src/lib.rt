//! Blocks of statements follow their walk.
//!
//! `specs/StatementSuits` says what the run of statements meets, `specs/Ends` how they end, and the law.
#![tactic(auto)]

pub mod calls;
mod law;
pub mod steps;

pub use law::statements_are_sound;
