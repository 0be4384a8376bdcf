//! Folding a term whose parts are of the right sorts keeps its meaning, quantifiers over short ranges among them.
//!
//! `specs/Sorted.antt` says which terms these are.
ghost use Rattle.wy_term.specs.Term.{Term};
ghost use Rattle.wy_term.specs.Meaning.{Names, sense};
ghost use Rattle.wy_term.specs.Folding.{folded};
ghost use Rattle.wy_term.specs.Sorts.{Agree, sort_in};
ghost use Rattle.wy_term_subst.specs.sorted.Sorted.{IsSorted};

/// A folded term means what the term means, whatever its names stand for, where each part is of the sort that its place
/// wants: a quantifier over a short range means what the `and` or the `or` of its instances means.
pub fn folding_sorted_terms_keeps_meaning()
    ensures { (t : Term) (names : Names) → IsSorted t → Agree (sort_in t) (sense names (folded t)) (sense names t) }
{}
