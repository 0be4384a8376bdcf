//! The head of a loop: what is assumed there holds at each turn.
ghost use Rattle.wy_sound_walks.specs.heads.Heads.{HeadsAreSound};

/// A store at any turn of a loop is at the loop's head: the new names of the variables that the body assigns are given their
/// values at this turn, and those that had values at the entry are in their declared types.
pub fn heads_are_sound()
    ensures sound { HeadsAreSound }
{}
