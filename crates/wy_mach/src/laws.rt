//! A law of runs. The function says it, and does nothing.
ghost use Rattle.wy_mach.specs.SharedTurns.{RunsAreCounted};

/// Where no turn of a run takes a key past the cap, the turns are steps on shared nodes, in which holders are
/// counted anew: `copies` is the number of nodes that these steps copied, up to 2^64 - 1, and `nodes` the number
/// of those that the result leads to in their last state.
pub fn runs_are_counted()
    ensures law { RunsAreCounted }
{}
