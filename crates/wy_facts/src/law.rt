//! What facts are.
ghost use Rattle.wy_facts.specs.Truth.{FactsAreTrue};

/// What a schema states of its arguments holds, whatever their names stand for.
pub fn facts_are_true()
    ensures sound { FactsAreTrue }
{}
