//! What facts are.
ghost use Rattle.wy_check_laws.specs.reread.EachFact.{EachFactHolds, TypesAreTold};

/// The formula that a step `fact` adds holds whatever its names stand for, for each number of a schema and all arguments
/// that it takes. The schema of named types asks that the types are told by formulas of which the listed name is the only
/// free one, and that all terms are of the sorts of their places; it takes each datum and each listed type.
pub fn each_fact_holds()
    ensures holds { EachFactHolds }
    ensures types { TypesAreTold }
{}
