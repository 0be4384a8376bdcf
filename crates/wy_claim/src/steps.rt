//! The kinds of step: drawing, splitting, meeting, and a look at the counter, which changes nothing.
use crate::plan::SeatState;
use atomic_table::{Join, Play, Split};
use std::marker::{Brand, PhantomData};

/// One `fetch_add` by a seat.
pub struct Draw;

impl Play<(), SeatState> for Draw {
    ghost use Rattle.wy_claim.specs.Steps.{Draws};

    ghost then = { λ _. Draws };
}

/// A read of the counter by a seat.
pub struct Look;

impl Play<(), SeatState> for Look {
    ghost use Rattle.wy_claim.specs.Steps.{Looks};

    ghost then = { λ _. Looks };
}

/// How much of a seat's weight a split gives away.
pub trait Share {
    ghost use Rattle.std.specs.Prelude.{ℕ};

    ghost amount: { ℕ };
}

impl Share for Brand {
    ghost amount = { 0 };
}

/// A seat is split by weight.
pub struct Cut<W> {
    share: PhantomData<W>,
}

impl<W: Share> Split<SeatState> for Cut<W> {
    ghost use Rattle.wy_claim.specs.Schedule.{rest_of, share_of};

    ghost left = { rest_of W.amount };

    ghost right = { share_of W.amount };
}

/// A seat takes in another.
pub struct Gather;

impl Join<SeatState> for Gather {
    ghost use Rattle.wy_claim.specs.Schedule.{gathered, met_away};

    ghost both = { gathered };

    ghost spent = { met_away };
}
