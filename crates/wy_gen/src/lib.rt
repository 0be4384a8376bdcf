//! The code of tests of types and of expressions.
//!
//! What it is stands in wy_code_spec, in `specs/compiled/TypeTests` and `Expressions`. The code is made from its end to
//! its beginning, so that what is live behind a point and how far a jump goes are known there.
//!
//! The code generator.
//!
//! What the code of a program is stands there too: `Statements` has the code of each statement,
//! and `Programs` the routines. A use is a move where its variable isn't live behind it; what stops being
//! live on an edge is released by one `Clear`. The code is made from its end to its beginning, so that
//! what is live behind a point and how far a jump goes are known there; the files of `src/` go by the
//! same names. `typed` has the same of a typed program. wy_code (`pieces`) has the pieces that
//! code is put together from, wy_code_spec (`tables`) the table of names and shapes.
#![tactic(auto)]

mod blocks;
mod calls;
mod expressions;
mod loops;
mod made;
mod operands;
mod operators;
mod program;
mod quantifiers;
mod simple;
mod straight;
mod type_tests;
pub mod typed;
mod updates;

pub use program::generate;
pub use wy_code::pieces::NoMemory;
