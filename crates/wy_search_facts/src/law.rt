//! Which facts a step may add.
ghost use Rattle.wy_search_facts.specs.SameFacts.{SameFacts};

/// The formula that a step `fact` adds, for any types, number and arguments, is the one that the schema with this number
/// states of them; where the schema takes no such arguments, the step isn't valid.
pub fn facts_are_those_of_the_schemas()
    ensures same { SameFacts }
{}
