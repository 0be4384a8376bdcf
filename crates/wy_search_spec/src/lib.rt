//! The search: the definition of its tree and its verdict.
//!
//! `specs/Tree` has the tree: a node is closed where it is shut, its classes clash or elimination refutes its forms; else
//! it splits, or is expanded, or stays open. The other files have what that stands on.
#![tactic(auto)]

mod law;
pub mod least;

pub use law::{leaves_are_these, one_verdict, open_leaves_are_these, small_searches_end_so};
pub use wy_check_spec::judge;
