//! The conditions that a well-typed program owes.
//!
//! What the statements of a body owe: `simple` has the statements that hold no others, and `rounds` the loop around, which `break` and
//! `continue` go by. `branches` has what stands before, between and behind the blocks of an `if`, and `heads` what stands before and
//! behind the body of a loop. `statements` goes through statements and blocks, and `executing` through the whole of a body.
//!
//! What the declarations of a program owe, one after the other: `begin` forgets what an earlier type, contract or body assumed. `entry`
//! has what is known where a contract or a body begins, and of a result. `types` goes through the clauses of a type, `contracts` through
//! those of a function or method, and `bodies` through its statements. `declarations` goes through a program, by the tables of `program`,
//! which know from its flow types (`numbers`) which expressions are numbers.
//!
//! What the tests of named types in a condition stand for: `unfolding` has the Val name and the formula of each named type. `mentioned`
//! finds the types that a condition mentions, through formulas too (`tests_of_types`, and `testing` tells which terms test none), and `telling` puts a goal together with what these
//! stand for. `standing` keeps the types that hypotheses test from one goal to the next. `limits` counts terms: they share what they are made of, and `shared` lists these, each once; `small` makes numbers of counts.
//!
//! `listing` has the call: it owes what the declarations do, finds what the tests of named types stand for, and counts. `fault` has the
//! limits.
#![tactic(auto)]

mod begin;
mod bodies;
mod branches;
mod contracts;
mod declarations;
mod entry;
mod executing;
mod fault;
mod heads;
mod limits;
mod listing;
mod mentioned;
mod numbers;
mod program;
mod rounds;
mod shared;
mod simple;
mod small;
mod standing;
mod statements;
mod telling;
mod testing;
mod tests_of_types;
mod types;
mod unfolding;

pub use fault::VcFault;
pub use listing::conditions;
