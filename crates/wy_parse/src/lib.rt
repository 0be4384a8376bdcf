//! The parser: from tokens to the surface tree.
//!
//! `parser` has the one call, `parse`. It reads `declarations`, these read `blocks` of statements
//! (`simple` ones and `nested` ones, which have blocks), and all of them types and expressions, which
//! the crate `wy_parse_grammar` reads. Each line of the grammar is a function, by the line's name or by what
//! the line reads, and each choice is made by the next token. What nests is read by function values
//! one level deeper: one number counts the levels, and where none is left stands the fault `Deep`.
#![tactic(auto)]

mod blocks;
mod declarations;
mod fault;
pub mod laws;
mod nested;
mod parser;
mod parts;
mod simple;

pub use fault::ParseFault;
pub use parser::parse;
