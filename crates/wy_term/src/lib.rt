//! Terms and formulas: what the conditions of a program and the steps of a certificate are written in.
//!
//! `node` has the forms of terms and formulas, each with its parts as numbers, and `terms` keeps nodes in a list, in
//! which a number names a term. `cond` has a condition, which is hypotheses and a goal beside the kind of what is owed
//! and the place where, and with what its tests of named types stand for. What a term means, for whatever data its names
//! stand for, and when a condition is true are definitions of `specs/`; no code computes them.
#![tactic(auto)]

mod cond;
mod copy;
mod fold;
mod law;
mod node;
mod parts;
mod replace;
mod terms;

pub use cond::{Cond, CondKind, Conds, Unfold};
pub use law::folding_keeps_meaning;
pub use node::{Kind, Node, Quantifier};
pub use terms::{Mark, Terms};
pub use wy_value::{Name, NoMemory, scan};
