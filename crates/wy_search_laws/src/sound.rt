//! What the search finds is true: a node that it closes can't be true, and a condition that is found is true of all data.
//!
//! The definition of the search is that of `wy_search_spec`. The proofs of the laws read no certificate.
ghost use Rattle.wy_search_laws.specs.sound.Closed.{ClosedNodesAreFalse, RefutedFormsAreNegative};
ghost use Rattle.wy_search_laws.specs.sound.Found.{FoundImpliesTrue};

/// Where elimination refutes forms, not all of them are at least 0, whatever their variables stand for.
pub fn eliminated_forms_are_refuted()
    ensures { RefutedFormsAreNegative }
{}

/// A node that the search closes, since it can be shut, its classes clash or elimination refutes its forms, isn't true,
/// whatever its names stand for.
pub fn closed_nodes_are_false()
    ensures { ClosedNodesAreFalse }
{}

/// A condition that the search finds within some budget is true of all data and whole numbers: where all its hypotheses
/// hold, its goal holds.
pub fn found_conditions_are_true()
    ensures sound { FoundImpliesTrue }
{}
