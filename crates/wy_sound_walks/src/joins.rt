//! Where paths of a body come together, what is known behind them holds of a store that comes from one of them.
//!
//! `specs/joins/Points` says what it means that a store is at a point of a body: at some names the hypotheses of the point hold, and the
//! terms of its variables mean their values. `specs/joins/Joins` has the law.
ghost use Rattle.wy_sound_walks.specs.joins.Joins.{JoinsAreSound};

/// A store that is at one of the paths that come together is at the point behind them: where terms of a variable differ, the new
/// name stands for its value; and the `or` of what each path assumed holds, since that path's part does.
pub fn joins_are_sound()
    ensures sound { JoinsAreSound }
{}
