//! Counted nodes, written in place where one place alone holds them.
//!
//! A heap is a slab of nodes, each with the count of the places and slots that hold it. `part` has what
//! a slot or a place holds, `node` a node and `heap` the heap. `making` makes nodes, `holding` and
//! `slots` give second holds, `releasing` lets go and frees at once what nothing holds any more,
//! `finding` says whether slots are there, `setting` writes at a path, and `comparing` and `showing` walk lists of nodes with a place in each.
//! What a place stands for is a relation by recursion on the value (`specs/Meaning.antt`), and that all
//! counts are right is `Stands` (`specs/Standing.antt`).
#![tactic(auto)]

mod comparing;
mod finding;
mod heap;
mod holding;
mod importing;
mod laws;
mod making;
mod node;
mod part;
mod releasing;
mod setting;
mod settling;
mod showing;
mod slots;
mod table;

pub use heap::Heap;
pub use laws::{nothing_dead, nothing_left};
pub use part::{Kind, Place, Slot};
pub use wy_items::NoMemory;
