//! Folding a term and putting one for a name keep sorts.
ghost use Rattle.std.specs.Prelude.{◌≡◌};
ghost use Rattle.wy_term.specs.Term.{Term};
ghost use Rattle.wy_term.specs.Folding.{folded};
ghost use Rattle.wy_term.specs.Sorts.{sort_in};
ghost use Rattle.wy_term_subst.specs.sorted.Sorted.{IsSorted};
ghost use Rattle.wy_term_subst.specs.Substitution.{substituted};
ghost use Rattle.wy_term_subst.specs.kept_sorts.SortKept.{HasSort};

/// A folded term is of the sort of the term, and so are its parts of the sorts that their places want.
pub fn folding_keeps_sorts()
    ensures { (t : Term) → IsSorted t → HasSort (folded t) (sort_in t) }
{}

/// Where a term of a name's sort is put for the name, the formula or term keeps its sort, and its parts theirs.
pub fn substituting_keeps_sorts()
    ensures { (f x t : Term) → IsSorted f → HasSort t (sort_in x) → HasSort (substituted f x t) (sort_in f) }
{}
