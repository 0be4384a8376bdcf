//! Laws of the definitions.
ghost use Rattle.std.specs.Prelude.{◌≡◌, ◌↔◌, ℕ, List};
ghost use Rattle.wy_core.specs.Types.{Ty};
ghost use Rattle.wy_core.specs.wy_value.Datum.{Datum};
ghost use Rattle.wy_types.specs.declared.conjuncts.Signed.{Signed};
ghost use Rattle.wy_types.specs.declared.table.Table.{Table};
ghost use Rattle.wy_types.specs.Conjuncts.{dnf_part};
ghost use Rattle.wy_types.specs.Names.{Declared};
ghost use Rattle.wy_types.specs.Questions.{numbered};
ghost use Rattle.wy_types.specs.Membership.{member, shape_of};
ghost use Rattle.wy_types.specs.Ranked.{IsRanked};
ghost use Rattle.wy_types.specs.Shape.{any_in, part_in};

/// The union of the conjuncts of a part is the part, where names recur only through records and
/// arrays.
pub fn union_is_part()
    ensures { (table : Table) (rank : ℕ → ℕ) (k : ℕ) → IsRanked table rank k → (d : Datum) (p : List (Signed ℕ)) → any_in (shape_of table k d) (dnf_part table k p) ≡ part_in (member table k d) p }
{}

/// The two types of a question have one number exactly where they are equal, places aside.
pub fn one_type_a_number()
    ensures { (names : List Declared) (a b : Ty) → ((numbered names a b).first ≡ (numbered names a b).second) ↔ (a ≡ b) }
{}
