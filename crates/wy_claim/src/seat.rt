//! What one thread holds of a counter.
ghost use Rattle.std.specs.Prelude.{◌≡◌};

use crate::plan::SeatState;
use atomic_table::Seat as Token;
use std::marker::Model;

/// A seat at one counter, from which one thread draws. It is two numbers, and may go to another thread. A seat that is
/// dropped takes its weight along, so its counter can then be dropped, and not closed.
#[derive(Drop)]
pub struct Seat {
    pub(crate) token: Token<(), SeatState>,
    pub(crate) weight: u32,
    pub(crate) ended: bool,
}

impl Model for Seat {
    ghost use Rattle.wy_claim.specs.Seats.{SeatView};

    ghost Value = { SeatView };

    ghost use Rattle.wy_claim.specs.Inside.{view_of_seat, IsSeat};

    ghost view = { view_of_seat };

    ghost invariant = { IsSeat };
}

impl Seat {
    /// What the seat weighs: into how many seats it can be split, what is left of it counted.
    pub fn weight(&self) -> u32
        ensures { result ≡ self.now.weight }
    {
        self.weight
    }

    /// Whether a draw of this seat, or of one that it met, found no piece left.
    pub fn has_ended(&self) -> bool
        ensures { result ≡ self.now.ended }
    {
        self.ended
    }
}
