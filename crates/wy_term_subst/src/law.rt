//! What holds of new numbers.
ghost use Rattle.std.specs.Prelude.{◌≡◌, false, ℕ, List};
ghost use Rattle.wy_term_subst.specs.Names.{is_in, new_number};

/// A new number is none of those that are taken.
pub fn new_numbers_are_new()
    ensures { (ns : List ℕ) → is_in (new_number ns) ns ≡ false }
{}
