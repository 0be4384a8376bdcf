//! What is written is a spelling.
ghost use Rattle.std.specs.Prelude.{List, ℕ};
ghost use Rattle.wy_term.specs.Term.{Term};
ghost use Rattle.wy_term.specs.Sorts.{Sort};
ghost use Rattle.wy_term_text.specs.show.Text.{text_of};
ghost use Rattle.wy_term_text.specs.spell.Grammar.{Spells};
ghost use Rattle.wy_term_text.specs.reread.Shown.{IsOf};

/// The text of a term, whose parts are of the sorts that their places want and whose names and numbers are within their
/// ranges, is a spelling of that term.
pub fn shown_terms_are_spelled()
    ensures { (t : Term) (sort : Sort) → IsOf t sort → Spells sort (text_of t) t }
{}
