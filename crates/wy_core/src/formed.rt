//! What it means that a core is formed, as every pass behind name resolution may take it to be.
//!
//! The definition stands in `specs/`, and `Formed` is the whole. `Bound` says where the names of a core
//! lead, by what the program offers to their uses (`Offers`), `Calls` and `Wholes` where calls stand,
//! `Literals` which numbers, `Recursion` where the recursion of types passes, and `Sizes` how large an
//! expression is. `laws` has what holds of it alone.
ghost use Rattle.std.specs.Prelude.{ℕ};
ghost use Rattle.wy_core.specs.CoreTree.{Core, Expr, aliases_of};
ghost use Rattle.wy_core.specs.formed.Bound.{Bound, BoundExpr, Scope};
ghost use Rattle.wy_core.specs.formed.Moves.{Moves};
ghost use Rattle.wy_core.specs.formed.Offers.{Offers};
ghost use Rattle.wy_core.specs.formed.Ranks.{Ranked};
ghost use Rattle.wy_core.specs.formed.Recursion.{Recursion};

/// An expression that is bound among some variables is bound among more of them, where those that come
/// have new numbers.
pub fn more_variables_may_be_in_scope()
    ensures bound { (o : Offers) (n m : ℕ) (vs ws : Scope) (e : Expr ℕ) → Moves n m vs ws → BoundExpr o n vs e → BoundExpr o m ws e }
{}

/// Where the recursion of types passes through records or arrays, they can be put in an order, in which the
/// names outside of these go back.
pub fn types_can_be_put_in_order()
    ensures ranked { (core : Core ℕ) → Bound core → Recursion core → Ranked (aliases_of core) }
{}
