//! Code whose jumps say how far they go, and the instructions that it stands for.
//!
//! `steps` has pieces of code, which are made from the last step to the first, so that how far a jump
//! goes is known where it is made; `placing` gives each step its number in a routine. What both make is
//! defined in `specs/Steps` and `specs/Placing`.

mod placing;
mod steps;

pub use placing::routine_of;
pub use steps::{
    Step, Steps, begin_turns, clear, clear_one, does, dropped, end_turns, fork, jump_over,
    leave_turns, next, prepend, registers_from, where_true,
};
pub use wy_items::NoMemory;
