//! Laws of values and their texts. Each function says one, and does nothing.
ghost use Rattle.std.specs.Prelude.{◌≡◌, ◌≤◌, ℕ, List, [], ◌∷◌, ◌++◌};
ghost use Rattle.wy_value.specs.ArgumentText.{Meets, Spells};
ghost use Rattle.wy_value.specs.Seen.{seen};
ghost use Rattle.wy_value.specs.Shown.{nesting, shown};
ghost use Rattle.wy_value.specs.Values.{IsValue};

use crate::fault::Kind;
use crate::value::Value;

/// The text of a value with at most 100 nested brackets, in round brackets, spells that value alone.
pub fn a_shown_value_is_read()
    ensures { (v : Value) → IsValue (seen v) → nesting (seen v) ≤ 100 → Spells (40 ∷ (shown (seen v) ++ 41 ∷ [])) (v ∷ []) }
{}

/// The text of a value determines the value, however deep it nests.
pub fn text_determines_value()
    ensures { (v w : Value) → IsValue (seen v) → IsValue (seen w) → shown (seen v) ≡ shown (seen w) → v ≡ w }
{}

/// A value is known from its datum.
pub fn datum_determines_value()
    ensures { (v w : Value) → seen v ≡ seen w → v ≡ w }
{}

/// A text spells one list of values.
pub fn a_text_has_one_reading()
    ensures { (text : List ℕ) (us vs : List Value) → Spells text us → Spells text vs → us ≡ vs }
{}

/// A text meets one fault at most, at one place, and what meets one spells nothing.
pub fn a_text_has_one_fault()
    ensures alone { (text : List ℕ) (x y : Kind) (at place : ℕ) → Meets text x at → Meets text y place → (x ≡ y) × (at ≡ place) }
    ensures apart { (text : List ℕ) (vs : List Value) (x : Kind) (at : ℕ) → Spells text vs → Meets text x at → ⊥ }
{}
