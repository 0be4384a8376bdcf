//! A counter from which threads draw the numbers of pieces, each number once and none left out.
//!
//! `Claims::new` makes the counter and the first seat, and `split` a seat for each thread. Each thread then draws from
//! its own seat until no piece is left. `meet` brings two seats together, and `close`, which takes the counter and the
//! one seat that is left, tells that each number below `pieces` was drawn exactly once.
//!
//! `plan` has what a counter is made for, the state of a seat, and the rule that holds between any two steps: some
//! schedule of the four kinds of step (making, splitting, drawing, meeting) leads to the counter and its seats. `laws`
//! says what every such schedule keeps. `steps` has the kinds of step, `seat` what a thread holds, and `claims` the
//! counter with its calls. Each call returns, and none waits for another thread.
#![tactic(auto)]

mod claims;
mod laws;
mod plan;
mod seat;
mod steps;

pub use claims::{Claims, MAX_PIECES, MAX_SEATS};
pub use laws::{always_agree, never_twice, never_wraps};
pub use seat::Seat;
pub use wy_items::NoMemory;
