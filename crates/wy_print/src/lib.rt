//! The printer: from a program to its one text.
//!
//! `printer` has the call, [`print`]: imports and declarations with blank lines between. `declarations`,
//! `statements`, `expressions` and `types` have what each class of the grammar is written as, and
//! `clauses` the lines of contracts and invariants. Each appends to one buffer. `levels` tells where an
//! expression needs brackets, `edges` looks where a text begins or ends with a bar before it is
//! written, and `pieces` has names, literals and margins.
#![tactic(auto)]

mod clauses;
mod declarations;
mod edges;
mod expressions;
mod levels;
mod pieces;
mod printer;
mod statements;
mod types;

pub use printer::print;
pub use wy_ast::NoMemory;
