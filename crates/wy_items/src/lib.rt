//! The data formers of trees: a list and a box that clauses see as what they hold.
//!
//! A clause sees a `Vec` with its allocator and its capacity, and a `Box` with its pointer, so a copy of
//! either never equals its original. `Items` is seen as the list of its items and `Boxed` as the value
//! inside, so a tree made of them is plain data: `≡` between two trees says that they are the same tree,
//! and an antt function can be their definition. Neither costs anything at run time.
//!
//! `NoMemory` is what a call answers that lacks memory.
//!
//! `specs/formers` says how each keeps its values, which lets a type hold itself through them.
#![tactic(auto)]

mod boxed;
pub mod few;
mod items;
mod memory;

pub use boxed::Boxed;
pub use items::{Items, at};
pub use memory::NoMemory;
