//! What the questions about types say of data without bounds holds of the values of the language, where
//! each record type has names as a record of the language has, and the question isn't wide.
//!
//! No function here does anything when it runs.
ghost use Rattle.std.specs.Prelude.{◌≡◌, ℕ, List, Some, true, false};
ghost use Rattle.wy_core.specs.Types.{NormalTy, Ty};
ghost use Rattle.wy_types.specs.Names.{Declared, Up};
ghost use Rattle.wy_types.specs.Questions.{IsWideAbout, IsWideWithin, normal_of};
ghost use Rattle.wy_types.specs.Recursion.{RecurThroughParts};
ghost use Rattle.wy_types_laws.specs.asked_types.Rows.{HasRows, NamesHaveRows};
ghost use Rattle.wy_types_laws.specs.asked_types.Shown.{HasField, HasItem, IsInhabited, IsItem, IsLacked, IsOutside, has_value_at, value_at};
ghost use Rattle.wy_value.specs.Datum.{Data, Datum, Fields};
ghost use Rattle.wy_value.specs.Datum as datum;
ghost use Rattle.wy_value.specs.Values.{IsValue};

/// Where the question whether one type is within another isn't wide, and some datum is in the one and
/// not in the other, some value of the language is.
pub fn outside_is_shown_by_values()
    ensures value { (names : List Declared) → RecurThroughParts names → NamesHaveRows names → (a b : Ty) → HasRows a → HasRows b → (IsWideWithin names a b → ⊥) → (d : Datum) → Up names d a ≡ true → Up names d b ≡ false → IsOutside names a b }
{}

/// Where the question about a type isn't wide, and some datum is in it, some value of the language is.
pub fn inhabited_types_have_values()
    ensures value { (names : List Declared) → RecurThroughParts names → NamesHaveRows names → (t : Ty) → HasRows t → (IsWideAbout names t → ⊥) → (d : Datum) → Up names d t ≡ true → IsInhabited names t }
{}

/// Where the question about a type isn't wide, a value that is an item of some array in it is an item of
/// an array of the language in it.
pub fn items_are_those_of_arrays()
    ensures value { (names : List Declared) → RecurThroughParts names → NamesHaveRows names → (t : Ty) → HasRows t → (IsWideAbout names t → ⊥) → (items : Data) (v : Datum) → IsValue v → IsItem v items → Up names (datum.Array items) t ≡ true → HasItem names t v }
{}

/// Where the question about a type isn't wide, and some datum in it is no record with a field, some value
/// of the language in it isn't. Where each is, a value at the field of some record in it is there in a
/// record of the language in it.
pub fn fields_are_those_of_records()
    ensures lacks { (names : List Declared) → RecurThroughParts names → NamesHaveRows names → (t : Ty) → HasRows t → (IsWideAbout names t → ⊥) → (f : List ℕ) (d : Datum) → has_value_at f d ≡ false → Up names d t ≡ true → IsLacked names f t }
    ensures values { (names : List Declared) → RecurThroughParts names → NamesHaveRows names → (t : Ty) → HasRows t → (IsWideAbout names t → ⊥) → (f : List ℕ) → ((d : Datum) → Up names d t ≡ true → has_value_at f d ≡ true) → (fields : Fields) (v : Datum) → IsValue v → value_at f fields ≡ Some v → Up names (datum.Record fields) t ≡ true → HasField names f t v }
{}

/// The normal form of a type has such names in its records as the type and the declared ones.
pub fn normal_types_have_rows()
    ensures value { (names : List Declared) (t : Ty) → NamesHaveRows names → HasRows t → HasRows (NormalTy (normal_of names t)) }
{}
