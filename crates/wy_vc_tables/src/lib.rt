//! The tables by which conditions know a program's declarations.
//!
//! `names` and `nodes` walk over a definition and its clauses. `tables` goes through the declarations: the number of the first expression
//! of each, and what each named type mentions; with what `wy_graph` tells of these, `made` puts the tables together.
#![tactic(auto)]

mod made;
mod names;
mod nodes;
pub mod program_names;
pub mod sizes;
mod tables;

pub use made::program_of;
