//! Definite assignment: each use of a variable follows an assignment to it, on each path through the
//! syntax, and each path of a body with a result ends in `return` or `fail`.
//!
//! `marks` has what may be without a value at a point of the program. `flow` has these marks for the
//! ends of a statement, and `transfer` leads them through statements. `uses` finds the uses in
//! expressions of what may be without a value, `statements` goes through a body with both, and
//! `program` goes through the declarations and gives the fault at the least place.
//!
//! What a path is, which event it meets and how it ends, is defined by the syntax alone, in
//! `specs/Paths` and `specs/Assigned`; `specs/Marks`, `specs/Flows` and `specs/Faults` have the
//! plain functions that the code computes, and the public call says that both agree.
#![tactic(auto)]

mod fault;
mod flow;
mod marks;
mod program;
mod statements;
mod transfer;
pub mod typed;
mod uses;

pub use fault::AssignFault;
pub use program::assigned;
