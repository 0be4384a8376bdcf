//! The verdicts on the conditions of a program, by one worker or by several side by side.
//!
//! `verdict` has what is known of a condition. `bench` has what a worker keeps from one condition to the next: an arena with copies of the
//! terms that its conditions are written in, the numbers that they have there, and what a search leaves to the next. `index` finds the
//! certificate for a condition, and `judging` gives the verdict on one condition, by the certificate or else by a search.
//!
//! `working` is what one worker does: it draws conditions from a counter (`wy_claim`) until none is left, and judges each. `discharging`
//! splits the counter's seat, has a worker in a thread of its own for each, and puts the verdicts in the order of the conditions
//! (`ordering`). Workers share the counter and what they only read; none waits for another, and the results are moved to whoever joined
//! them. A `Gate` is told of each condition before its verdict. The verdicts are the same for every number of workers.
//!
//! `alone` gives the same verdicts by one worker who needs no bench, on the conditions' own terms, and `staffing` takes the one way or the
//! other by the number of workers.
#![tactic(auto)]

mod alone;
mod bench;
mod discharging;
mod gate;
mod index;
mod judging;
mod law;
mod ordering;
mod staffing;
mod verdict;
mod working;

pub use discharging::discharge;
pub use gate::{Gate, OpenGate};
pub use law::one_list;
pub use staffing::judge;
pub use verdict::{End, Verdict};
pub use working::work;
pub use wy_claim::{Claims, MAX_PIECES, MAX_SEATS, Seat};
