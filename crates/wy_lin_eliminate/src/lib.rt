//! Elimination: whether forms that are all at least 0 refute each other.
//!
//! `elimination` takes one variable after the other away. The forms and the steps of a certificate that gave them
//! stand in a `table`; `given` puts the given forms into it, and `turns` the sums of a lower and an upper form of a
//! variable (`sums`, by `adding`). Forms are divided by greatest common divisors in `division`, compared in `comparing`, and sorted by
//! the sign of a coefficient in `sides`. `tally` finds the variable that goes first; `few` counts few variables.
#![tactic(auto)]

mod adding;
mod comparing;
mod division;
mod elimination;
mod few;
mod given;
mod law;
mod places;
mod sides;
mod steps;
mod sums;
mod table;
mod tally;
mod turns;

pub use division::{common, lowered};
pub use elimination::eliminate;
pub use law::steps_refute;
pub use steps::{Elim, LinStep, Steps};
