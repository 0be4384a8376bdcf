//! Membership: which values are in a type.
//!
//! `membership` asks by cases on the type and by recursion on the value, as the definition of `wy_types` does; `kinds` tells
//! what a value is, its parts aside.
#![tactic(auto)]

mod kinds;
mod membership;

pub use membership::member;
