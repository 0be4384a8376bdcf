//! Where the steps of a routine stand.
ghost use Rattle.std.specs.Prelude.{List};
ghost use Rattle.wy_code.specs.pieces.Placing.{placed};
ghost use Rattle.wy_code.specs.declared.pieces.steps.Step.{Step};
ghost use Rattle.wy_gen_laws.specs.Places.{StandAt};

/// The steps that a routine is made of stand in it from its first instruction on.
pub fn placed_steps_stand()
    ensures stand { (steps : List Step) → StandAt (placed 0 steps) 0 steps }
{}
