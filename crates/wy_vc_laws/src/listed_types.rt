//! Each condition of a program lists the named types that it asks about.
ghost use Rattle.wy_vc_laws.specs.listed_types.Listed.{OwedConditionsListTheirTypes};

/// The conditions of a program, whatever the program and its flow types: each declared type about which a hypothesis or the goal
/// asks is among the types that are listed beside it, and so is each about which the formula of a listed type asks; only declared
/// types are listed. So no test of a declared type in a condition is left without its meaning.
pub fn owed_conditions_list_their_types()
    ensures listed { OwedConditionsListTheirTypes }
{}
