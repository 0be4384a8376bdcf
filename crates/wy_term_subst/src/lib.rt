//! A term put for a name.
//!
//! `substitution` has the main call. It lists what the two terms are made of (`within`), notes the names that stand in them
//! (`names`), and then makes the term anew (`walk`) from its leaves up, each part by `parts`. `specs/Substitution.antt` says
//! which term that is.
#![tactic(auto)]

pub mod grounded;
pub mod kept_sorts;
mod law;
mod names;
mod parts;
mod scope;
pub mod sorted;
pub mod substituted;
mod substitution;
mod walk;
mod within;

pub use law::new_numbers_are_new;
pub use names::{Taken, new_number, none_taken, take_numbers};
pub use parts::{parts_of, with_parts};
pub use substitution::subst;
pub use within::made_of;
pub use wy_term::{Cond, Kind, Name, NoMemory, Node, Terms};
