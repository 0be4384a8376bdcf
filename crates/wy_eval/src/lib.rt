//! What evaluations of code do around statements: types that values are given, and printing.
//!
//! `program` has what they go by, `constrained` which declared types reach one with clauses,
//! `variables` the declared types of a function's variables, and `giving` whether a value is of the type
//! that it is given, or of one that it is tested for. `printing` has the two built-in methods. Each function answers what the value
//! semantics of wy_sem says.
//!
//! How calls of declared functions and methods begin and end.
//!
//! `exits` has how a statement ends and how a value goes into a variable, `leaving` how a result is given,
//! and `entering` what is asked of arguments. Each function answers what the value semantics of wy_sem
//! says.
//!
//! Functions and methods are evaluated as the value semantics says, on values that are copied, with each
//! contract checked.
//!
//! `ending` has the public call, and how an evaluation ends. `calls`, `statements`, `assignments` and
//! `expressions` call one another in one cycle; `storing` has what goes into variables, `turning` what
//! follows the body of a loop, and `built_ins` which declaration a number names.
#![tactic(auto)]

mod assignments;
mod built_ins;
mod calls;
mod constrained;
mod ending;
mod entering;
mod exits;
mod expressions;
mod giving;
mod leaving;
mod printing;
mod program;
mod statements;
mod storing;
mod turning;
mod variables;

pub use ending::{EvalEnd, eval};
