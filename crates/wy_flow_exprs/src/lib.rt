//! Flow typing of expressions.
//!
//! `signatures` has what a call must meet, and `walk` what an expression leads to: its type, and the
//! changes of variables under which it is true or false. `operators`, `narrowing`, `parts` and `calls`
//! have the rules, each file those of one family of constructs, and `expressions` goes through a tree.
#![tactic(auto)]

mod calls;
pub mod checks;
mod expressions;
mod narrowing;
mod operators;
mod parts;
mod signatures;
mod walk;

pub use calls::check_args;
pub use expressions::{typed, typed_all};
pub use parts::item_of;
pub use signatures::{Signature, result_of, signatures_of};
pub use walk::{Found, Program, Walk};
