//! Statements leave variables that they neither assign nor declare as they are.
//!
//! `specs/frames/Frames` says which variables a statement unsets, and what it keeps of a store. `proofs/frames_lemmas/EveryLemmas` has what holds of each
//! answer of an evaluation, step by step.
ghost use Rattle.wy_sound_kinds.specs.frames.Frames.{StatementsKeepOthers};

/// However a statement or a block ends, at any number of ticks: a variable that it neither assigns nor declares without a value
/// is as it was before; and one that had a value, and that it doesn't declare without one, has a value.
pub fn statements_keep_others()
    ensures keep { StatementsKeepOthers }
{}
