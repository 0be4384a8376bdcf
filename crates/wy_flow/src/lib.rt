//! Flow typing.
//!
//! `state` has what is known at a point of a body. `values` has what comes into variables, `paths`
//! updates of their parts. `branches` has tests and clauses, `assigned` the variables that a loop gives
//! new types, and `loops` their heads and ends. `statements` goes through a body, `program` through
//! the declarations.
#![tactic(auto)]

mod assigned;
mod branches;
mod loops;
mod paths;
mod program;
mod state;
mod statements;
mod values;

pub use program::check;
pub use wy_flow_spec::typing::{FlowFault, Typed};
