//! What a counter is made for, and what is true of it and its seats between any two steps.
use atomic_table::TableRule;
use std::collections::LinkedList;

/// How many pieces a counter has, and what its seats weigh together.
#[derive(Clone, Copy)]
pub struct Plan {
    pub pieces: u32,
    pub seats: u32,
}

/// The state of one seat, as contracts know it. No value of it is made.
pub struct SeatState {
    pub plan: Plan,
    /// All numbers that the seat's steps drew, in their order, those of `pieces` or more too.
    pub drawn: LinkedList<u64>,
    pub weight: u32,
    pub ended: bool,
}

/// The rule of the table: its one word is the counter, and the counter and the seats agree.
pub struct EachNumberOnce;

impl TableRule<(), SeatState, Plan> for EachNumberOnce {
    ghost use Rattle.wy_claim.specs.Steps.{Kept};
    ghost use Rattle.wy_claim.specs.Schedule.{first_seat};

    ghost holds = { Kept };

    ghost first = { first_seat };
}
