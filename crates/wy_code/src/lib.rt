//! Instructions: what the machine runs.
//!
//! `instructions` has one instruction of each kind, `routines` the code of a program, and `listing`
//! writes it as text; how is defined in `specs/Listing`. All go by the order of the kinds. ORDER
//! Instr.
#![tactic(auto)]

mod instructions;
mod listing;
pub mod pieces;
mod routines;

pub use instructions::{Arithmetic, Comparison, Instr, Kind, Scalar, Slot};
pub use listing::show_code;
pub use routines::{Code, Routine};
pub use wy_items::NoMemory;
