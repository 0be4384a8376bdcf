//! The grammar of types, expressions and labels, from tokens to parts of the surface tree.
//!
//! `types` and `expressions` read what they are named for, where there are so many levels left to
//! nest in, and `labels` the labels of cases. Each line of the grammar is a function, by the line's
//! name or by what the line reads, and each choice is made by the next token. `operators` has the
//! lines of the operators with two operands, `literals` those of single tokens, `cursor` the steps on
//! tokens and `sort` their classes. What nests is read by function values one level deeper: one number
//! counts the levels, and where none is left stands the fault `Deep`. `measured` has the trees that are
//! made, with their heights, and `expr_nodes` makes the nodes of expressions. Reading is linear in the
//! tokens that are read: none is read twice.
#![tactic(auto)]

pub mod cursor;
mod expr_nodes;
pub mod expressions;
pub mod fault;
pub mod labels;
pub mod laws;
mod literals;
pub mod measured;
mod operators;
pub mod sort;
pub mod types;
