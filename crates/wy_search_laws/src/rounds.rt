//! Certificates of what the search finds, where steps close its leaves.
//!
//! Splits, witnesses, instances, facts and products of the search are steps of a certificate, at each node that has at
//! least what the search's node has and no other names.
ghost use Rattle.wy_search_laws.specs.rounds.Leaves.{FoundIsCertified, LeavesClose, SplitsOnAtoms};

/// Where steps close each node that the search closes by its classes or by elimination, each condition that it finds has a
/// valid certificate: if its formulas are sorted and folded and its named types closed.
pub fn found_conditions_are_certified_by_leaves()
    ensures certified { LeavesClose → FoundIsCertified }
{}

/// What a node of sorted formulas splits on in the search is an atom, so a certificate may split on it.
pub fn searches_split_on_atoms()
    ensures { SplitsOnAtoms }
{}
