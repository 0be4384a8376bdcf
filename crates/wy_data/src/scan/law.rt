//! What holds of every name.
ghost use Rattle.std.specs.Prelude.{List, ℕ};
ghost use Rattle.wy_data.specs.Words.{IsName};
ghost use Rattle.wy_data.specs.scan.Words.{IsWord};

/// Each name of the language is a word: no byte of it is a sign of the grammar, and the first is no digit.
pub fn names_are_words()
    ensures { (w : List ℕ) → IsName w → IsWord w }
{}
