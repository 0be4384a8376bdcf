//! What the term of a walk means depends on names below the walk's count alone, and its hypotheses begin with those before it.
ghost use Rattle.wy_sound_walks.specs.depends.Begins.{HypothesesGrow, HypothesesGrowInBlocks};
ghost use Rattle.wy_sound_walks.specs.depends.Depends.{TermsDependOnNamesBelow};

/// The term of an expression means the same at any names that agree below the count behind its walk, whatever the others stand
/// for, where this is so of the terms of its variables.
pub fn terms_depend_on_names_below()
    ensures depend { TermsDependOnNamesBelow }
{}

/// The hypotheses behind the walk of an expression begin with those before it.
pub fn hypotheses_grow()
    ensures grow { HypothesesGrow }
{}

/// The hypotheses of each point behind a block, and of each `break` in it, begin with those before the block.
pub fn hypotheses_grow_in_blocks()
    ensures grow { HypothesesGrowInBlocks }
{}
