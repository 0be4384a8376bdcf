//! The classes of the search's definition are the least congruence of a node's equations on the terms present.
//!
//! `specs/least/Least` says what a congruence on a list of terms is; the classes are those of `specs/Classes`.
ghost use Rattle.wy_search_spec.specs.least.Least.{ClassesAreCongruent, ClassesAreLeast};

/// Two terms of a list are in one class, by the definition of the search, exactly where each congruence on the list that has the
/// equations among some literals has them equal.
pub fn classes_are_least()
    ensures congruent { ClassesAreCongruent }
    ensures least { ClassesAreLeast }
{}
