//! The types that questions answer have such names in their records as those in question.
//!
//! No function here does anything when it runs.
ghost use Rattle.std.specs.Prelude.{ℕ, List};
ghost use Rattle.wy_core.specs.Types.{Ty};
ghost use Rattle.wy_types.specs.Names.{Declared};
ghost use Rattle.wy_subtype_parts.specs.Norms.{IsNorm};
ghost use Rattle.wy_subtype_parts.specs.Items.{IsElement};
ghost use Rattle.wy_subtype_parts.specs.Fields.{IsField};
ghost use Rattle.wy_subtype_parts.specs.updates.Updates.{IsWith};
ghost use Rattle.wy_types_laws.specs.asked_types.Rows.{HasRows, NamesHaveRows};

/// Where the declared types and those in question have such names in their records as the language has,
/// so do the conjuncts with a value, what the items of arrays and the values at a field may be, and the
/// records with another value at a field.
pub fn answered_types_have_rows()
    ensures norm { (names : List Declared) → NamesHaveRows names → (t made : Ty) → HasRows t → IsNorm names t made → HasRows made }
    ensures element { (names : List Declared) → NamesHaveRows names → (t made : Ty) → HasRows t → IsElement names t made → HasRows made }
    ensures field { (names : List Declared) → NamesHaveRows names → (f : List ℕ) (t made : Ty) → HasRows t → IsField names f t made → HasRows made }
    ensures with_field { (names : List Declared) → NamesHaveRows names → (f : List ℕ) (t value made : Ty) → HasRows t → HasRows value → IsWith names f t value made → HasRows made }
{}
