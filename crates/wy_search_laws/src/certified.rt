//! Each condition that the search finds has a valid certificate, by the definitions alone.
ghost use Rattle.wy_search_laws.specs.rounds.Leaves.{FoundIsCertified};

/// Each condition that the search finds within some budget has a valid certificate: if its formulas are sorted and folded and
/// its named types closed.
pub fn found_conditions_are_certified()
    ensures certified { FoundIsCertified }
{}
