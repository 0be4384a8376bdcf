//! A term put for a name keeps what is meant.
//!
//! `specs/Meant.antt` says what names stand for where some of them stand for what terms mean.
ghost use Rattle.std.specs.Prelude.{[], ◌∷◌};
ghost use Rattle.wy_term.specs.Term.{Term};
ghost use Rattle.wy_term.specs.Meaning.{Names, sense};
ghost use Rattle.wy_term.specs.Sorts.{Agree, sort_in};
ghost use Rattle.wy_term_subst.specs.sorted.Sorted.{IsSorted};
ghost use Rattle.wy_term_subst.specs.kept_sorts.SortKept.{HasSort};
ghost use Rattle.wy_term_subst.specs.Substitution.{substituted};
ghost use Rattle.wy_term_subst.specs.substituted.Meant.{meant};

/// The formula or term in which a term of a name's sort is put for the name means what it means itself where the name
/// stands for what that term means. No name of the term is captured by a quantifier.
pub fn substituting_keeps_meaning()
    ensures { (f x t : Term) (names : Names) → IsSorted f → HasSort t (sort_in x) → Agree (sort_in f) (sense names (substituted f x t)) (sense (meant ((x, t) ∷ []) names) f) }
{}
