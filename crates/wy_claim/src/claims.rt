//! The counter and its calls.
ghost use Rattle.std.specs.Prelude.{◌≡◌, ℕ, ◌-◌, ◌<◌, ◌≤◌, true, false, length, All, IsOk, IfOk, IfSome, IfNone};
ghost use Rattle.wy_claim.specs.Seats.{fresh, weighing, drew, ended, met, Apart};
ghost use Rattle.wy_claim.specs.Moments.{IsNextPiece, EachOnce};

use crate::plan::{EachNumberOnce, Plan, SeatState};
use crate::seat::Seat;
use crate::steps::{Cut, Draw, Gather, Look, Share};
use atomic_table::Table;
use std::alloc::Global;
use std::marker::{Brand, Model};
use wy_items::NoMemory;

/// The most pieces that a counter may have.
pub const MAX_PIECES: u32 = 1_048_576;

/// The most seats that a counter may have.
pub const MAX_SEATS: u32 = 64;

/// A counter of pieces, which threads share by reference. Its one word is on the heap.
#[derive(Drop)]
pub struct Claims {
    table: Table<(), SeatState, Plan, EachNumberOnce, Global>,
    plan: Plan,
}

impl Model for Claims {
    ghost use Rattle.wy_claim.specs.Seats.{Counter};

    ghost Value = { Counter };

    ghost use Rattle.wy_claim.specs.Inside.{view_of_claims, IsClaims};

    ghost view = { view_of_claims };

    ghost invariant = { IsClaims };
}

impl Claims {
    /// A counter of this many pieces, which stands at 0, and its first seat, which has the weight of all seats.
    /// It allocates one word, and `NoMemory` comes only where there is no memory for it.
    pub fn new(alloc: Global, pieces: u32, seats: u32) -> Result<(Claims, Seat), NoMemory>
        requires pieces { pieces ≤ MAX_PIECES }
        requires seats { (1 ≤ seats) × (seats ≤ MAX_SEATS) }
        ensures counter { IfOk result (λ made. (made.0.pieces ≡ pieces) × (made.0.seats ≡ seats)) }
        ensures seat { IfOk result (λ made. made.1 ≡ fresh made.0 seats) }
    {
        let plan = Plan { pieces, seats };
        let Ok((table, token)) = Table::of_words(alloc, &[0], &plan) else {
            return Err(NoMemory);
        };
        let claims = Claims { table, plan };
        let seat = Seat {
            token,
            weight: seats,
            ended: false,
        };
        Ok((claims, seat))
    }

    /// How many pieces the counter has.
    pub fn pieces(&self) -> u32
        ensures { result ≡ self.now.pieces }
    {
        self.plan.pieces
    }

    /// Gives this part of the seat's weight to a new seat, which has drawn nothing. The old one keeps its list and the
    /// rest of its weight. It costs one load and takes no memory, so the answer is never `NoMemory`.
    pub fn split(&self, _alloc: Global, seat: &mut Seat, seats: u32) -> Result<Seat, NoMemory>
        requires own { seat.old.counter ≡ self.now }
        requires not_ended { seat.old.ended ≡ false }
        requires seats { (1 ≤ seats) × (seats < seat.old.weight) }
        ensures no_memory { IsOk result }
        ensures value { IfOk result (λ other. other ≡ fresh self.now seats) }
        ensures rest { seat.new ≡ weighing seat.old (seat.old.weight - seats) }
    {
        Ok(self.split_by::<Brand>(seat, seats))
    }

    // Splits by the share that `W` names, so that the split is one step.
    fn split_by<W: Share>(&self, seat: &mut Seat, seats: u32) -> Seat
        requires picked { seats ≡ W.amount }
        requires own { seat.old.counter ≡ self.now }
        requires not_ended { seat.old.ended ≡ false }
        requires seats { (1 ≤ seats) × (seats < seat.old.weight) }
        ensures value { result ≡ fresh self.now seats }
        ensures rest { seat.new ≡ weighing seat.old (seat.old.weight - seats) }
    {
        let token = self.table.shared.split_seat::<Cut<W>>(&mut seat.token);
        seat.weight -= seats;
        Seat {
            token,
            weight: seats,
            ended: false,
        }
    }

    /// Draws the next piece, by one `fetch_add`: the number at which the counter stood at this step. `None` comes
    /// exactly where that was at least `pieces`, and the seat has then ended. A loop of draws ends, since the list
    /// grows and is never longer than the next piece's number.
    pub fn draw(&self, seat: &mut Seat) -> Option<u32>
        requires own { seat.old.counter ≡ self.now }
        requires not_ended { seat.old.ended ≡ false }
        ensures counter { IsNextPiece self.now seat.old result }
        ensures within { IfSome result (λ piece. piece < self.now.pieces) }
        ensures above { IfSome result (λ piece. All (λ number. number < piece) seat.old.drawn) }
        ensures room { IfSome result (λ piece. length seat.old.drawn ≤ piece) }
        ensures drawn { IfSome result (λ piece. seat.new ≡ drew seat.old piece) }
        ensures none { IfNone result (seat.new ≡ ended seat.old) }
    {
        let found = self.table.shared.fetch_add::<Draw>(&mut seat.token, 0, 1);
        if found < u64::from(self.plan.pieces) {
            Some(found as u32)
        } else {
            seat.ended = true;
            None
        }
    }

    /// The seat takes in another: its list, which had no number in common with its own, its weight, and its end. It
    /// costs two loads.
    pub fn meet(&self, seat: &mut Seat, other: Seat)
        requires own { seat.old.counter ≡ self.now }
        requires other { other.counter ≡ self.now }
        ensures apart { Apart seat.old.drawn other.drawn }
        ensures both { seat.new ≡ met seat.old other }
    {
        let Seat {
            token,
            weight,
            ended,
        } = other;
        let shared = &self.table.shared;
        shared.join_seat::<Gather>(&mut seat.token, token);
        shared.load::<Look>(&mut seat.token, 0);
        seat.weight += weight;
        seat.ended = seat.ended || ended;
    }

    /// Ends the counter with the seat that has met all others, and frees it. Where the seat has ended, it and those
    /// that it met drew each piece exactly once.
    pub fn close(self, seat: Seat)
        requires own { seat.counter ≡ self }
        requires whole { seat.weight ≡ self.seats }
        ensures each_once { seat.ended ≡ true → EachOnce self.pieces seat.drawn }
    {
        let Claims { table, plan: _ } = self;
        let Seat {
            token,
            weight: _,
            ended: _,
        } = seat;
        table.close_with(token).free();
    }
}
