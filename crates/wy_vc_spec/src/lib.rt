//! The conditions that a program owes, as a definition.
//!
//! It stands in `specs/`: a plain function from the typed core tree to a list of conditions, each a goal of some kind at a place, under
//! the hypotheses on the path to it. There is one equation for each construct.
//!
//! - `Sizes` and `Numbered` give each expression the number that it has in the walk of flow typing, so that a node knows its type.
//! - `Named` says which named types a formula writes out; the others it tests, as `in(v, N)`.
//! - `Making`, `Operations` and `Values` have the term of what an expression evaluates to, and the formula that a datum is in a type.
//! - `Owed` and `Clauses` have goals that are owed one after the other, and clauses where others walk them: a clause is walked again for
//!   its formula at each place where it is owed or assumed, and what it owes itself is owed once, where it is declared.
//! - `Calls` and `Walks` have what calls and expressions owe; the table of operations stands in `Walks`.
//! - `Spots`, `Large`, `Joins`, `Assigned` and `Statements` go through a body: hypotheses are absolute lists, names are made by a count,
//!   and paths come together by an `or` of what each assumed since they parted.
//! - `Programs` goes through declarations and has the whole list, and `Limits` which limit it passes first and what tests of named types
//!   stand for in a condition.
//! - `Examples` has what small programs owe.
//!
//! Each check of the value semantics has a goal whose truth is what the check asks: the kinds and the places are those of its faults.
#![tactic(auto)]

pub mod answered;
mod laws;

pub use laws::small_programs_owe;
