//! Folding twice is folding once.
ghost use Rattle.wy_term.specs.Term.{Symbol, Of, Parts};
ghost use Rattle.wy_term.specs.Folding.{folded};
ghost use Rattle.wy_term_text.specs.reread.Folded.{IsFolded, AreFolded};

/// What a term of folded parts is folded to is folded throughout: it is folded to itself, and so is all that it is made of.
pub fn made_terms_are_folded()
    ensures { (symbol : Symbol) (ps : Parts) → AreFolded ps → IsFolded (folded (Of symbol ps)) }
{}
