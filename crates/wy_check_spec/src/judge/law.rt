//! What is true of nodes.
ghost use Rattle.wy_check_spec.specs.judge.Told.{JudgesTruly, AddsTruly, BeginsTruly};

/// Where the literals hold, a formula that they judge yes holds, and one that they judge no fails.
pub fn judges_truly()
    ensures judges { JudgesTruly }
{}

/// A node whose literals and pending formulas hold stays so with a formula that holds, and with the denial of one that
/// fails.
pub fn adds_truly()
    ensures adds { AddsTruly }
{}

/// Where a condition's hypotheses hold and its goal fails, the node in which its certificate begins is true.
pub fn begins_truly()
    ensures begins { BeginsTruly }
{}
