//! A folded term stays as it is.
ghost use Rattle.std.specs.Prelude.{◌≡◌};
ghost use Rattle.wy_term.specs.Term.{Term};
ghost use Rattle.wy_term.specs.Sorts.{Sort};
ghost use Rattle.wy_term_text.specs.show.Text.{text_of};
ghost use Rattle.wy_term_text.specs.spell.Made.{made, IsOnly};
ghost use Rattle.wy_term_text.specs.reread.Shown.{IsOf};
ghost use Rattle.wy_term_text.specs.reread.Folded.{IsFolded};

/// A term that is folded throughout is made from its leaves up as that very term, and what is made so is folded throughout,
/// so making it twice is making it once.
pub fn folded_terms_are_made_anew()
    ensures stays { (t : Term) → IsFolded t → made t ≡ t }
    ensures folded { (t : Term) → IsFolded (made t) }
    ensures twice { (t : Term) → made (made t) ≡ made t }
{}

/// The text of a folded term, whose parts are of the sorts that their places want and whose names and numbers are within
/// their ranges, is read as that very term.
pub fn shown_terms_are_read()
    ensures { (t : Term) (sort : Sort) (r : Term) → IsFolded t → IsOf t sort → IsOnly sort (text_of t) r → r ≡ t }
{}
