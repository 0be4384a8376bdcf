//! Questions about the types of a program.
ghost use Rattle.std.specs.Prelude.{◌≡◌, true, false, IfOk, OnOk};
ghost use Rattle.wy_canon.specs.wy_core.CoreSeen.{seen_ty};
ghost use Rattle.wy_subtype.specs.Known.{WideOnly};
ghost use Rattle.wy_canon.specs.wy_types.Names.{Up, types_of};
ghost use Rattle.wy_canon.specs.wy_types.Questions.{IsOver, IsWideAbout, IsWideWithin};
ghost use Rattle.wy_canon.specs.wy_types.Recursion.{RecurThroughParts};
ghost use Rattle.wy_canon.specs.wy_value.Datum.{Datum};

use crate::inclusion::{is_inhabited, is_within};
use std::alloc::Global;
use wy_canon::wy_core::Ty;
use wy_canon::{Names, Question, TypeFault};

/// Whether every datum in `a` is in `b`, by upward readings of both. Wide exactly where the question
/// is. The question becomes this one, in time linear in the size of both types and of the two before;
/// then each part that it reaches falls into conjuncts once, an equal part or conjunct is found by a
/// digest in expected time linear in its own size, and values are found in time linear in what is
/// asked, each clause read once for each thing that it needs.
pub fn subtype_in(
    alloc: Global,
    names: &Names,
    question: &mut Question,
    a: &Ty,
    b: &Ty,
) -> Result<bool, TypeFault>
    requires recursion { RecurThroughParts (types_of names.now) }
    requires over { IsOver (types_of names.now) question.old }
    ensures sound { IfOk result (λ yes. yes ≡ true → (d : Datum) → Up (types_of names.now) d (seen_ty a.now) ≡ true → Up (types_of names.now) d (seen_ty b.now) ≡ true) }
    ensures complete { IfOk result (λ yes. yes ≡ false → (d : Datum) × ((Up (types_of names.now) d (seen_ty a.now) ≡ true) × (Up (types_of names.now) d (seen_ty b.now) ≡ false))) }
    ensures wide { WideOnly result (IsWideWithin (types_of names.now) (seen_ty a.now) (seen_ty b.now)) }
    ensures narrow { IfOk result (λ yes. IsWideWithin (types_of names.now) (seen_ty a.now) (seen_ty b.now) → ⊥) }
    ensures over { OnOk result (IsOver (types_of names.now) question.new) }
{
    question.ask(alloc, names, a, b)?;
    let yes = is_within(
        alloc,
        &question.table,
        question.depth,
        question.first,
        question.second,
    )?;
    Ok(yes)
}

/// The same for one question alone: the table is made for it, in time linear in the declared types.
pub fn subtype(alloc: Global, names: &Names, a: &Ty, b: &Ty) -> Result<bool, TypeFault>
    requires recursion { RecurThroughParts (types_of names.now) }
    ensures sound { IfOk result (λ yes. yes ≡ true → (d : Datum) → Up (types_of names.now) d (seen_ty a.now) ≡ true → Up (types_of names.now) d (seen_ty b.now) ≡ true) }
    ensures complete { IfOk result (λ yes. yes ≡ false → (d : Datum) × ((Up (types_of names.now) d (seen_ty a.now) ≡ true) × (Up (types_of names.now) d (seen_ty b.now) ≡ false))) }
    ensures wide { WideOnly result (IsWideWithin (types_of names.now) (seen_ty a.now) (seen_ty b.now)) }
    ensures narrow { IfOk result (λ yes. IsWideWithin (types_of names.now) (seen_ty a.now) (seen_ty b.now) → ⊥) }
{
    let mut question = names.question(alloc)?;
    subtype_in(alloc, names, &mut question, a, b)
}

/// Whether no datum is in the type, by its upward reading. Wide exactly where the question is. The
/// question becomes that about the type; the cost is that of `subtype_in`.
pub fn empty_in(
    alloc: Global,
    names: &Names,
    question: &mut Question,
    ty: &Ty,
) -> Result<bool, TypeFault>
    requires recursion { RecurThroughParts (types_of names.now) }
    requires over { IsOver (types_of names.now) question.old }
    ensures sound { IfOk result (λ yes. yes ≡ true → (d : Datum) → Up (types_of names.now) d (seen_ty ty.now) ≡ false) }
    ensures complete { IfOk result (λ yes. yes ≡ false → (d : Datum) × (Up (types_of names.now) d (seen_ty ty.now) ≡ true)) }
    ensures wide { WideOnly result (IsWideAbout (types_of names.now) (seen_ty ty.now)) }
    ensures narrow { IfOk result (λ yes. IsWideAbout (types_of names.now) (seen_ty ty.now) → ⊥) }
    ensures over { OnOk result (IsOver (types_of names.now) question.new) }
{
    question.ask(alloc, names, ty, ty)?;
    let found = is_inhabited(alloc, &question.table, question.depth, question.first)?;
    Ok(!found)
}

/// The same for one question alone: the table is made for it, in time linear in the declared types.
pub fn empty(alloc: Global, names: &Names, ty: &Ty) -> Result<bool, TypeFault>
    requires recursion { RecurThroughParts (types_of names.now) }
    ensures sound { IfOk result (λ yes. yes ≡ true → (d : Datum) → Up (types_of names.now) d (seen_ty ty.now) ≡ false) }
    ensures complete { IfOk result (λ yes. yes ≡ false → (d : Datum) × (Up (types_of names.now) d (seen_ty ty.now) ≡ true)) }
    ensures wide { WideOnly result (IsWideAbout (types_of names.now) (seen_ty ty.now)) }
    ensures narrow { IfOk result (λ yes. IsWideAbout (types_of names.now) (seen_ty ty.now) → ⊥) }
{
    let mut question = names.question(alloc)?;
    empty_in(alloc, names, &mut question, ty)
}
