//! Contract soundness: a program that is typed and assigned, and whose conditions are true, never faults, and what it returns
//! meets its contract.
#![tactic(auto)]

pub mod acceptance;
mod law;
pub mod marks;
pub mod sources;
pub mod typing;

pub use law::{
    accepted_programs_are_shown, conditions_tell_members, membership_agrees, programs_are_sound,
    values_are_held,
};
