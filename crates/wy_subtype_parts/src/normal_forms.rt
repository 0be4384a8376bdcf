//! The normal form of a type.
ghost use Rattle.std.specs.Prelude.{◌≡◌, IfOk, OnOk};
ghost use Rattle.wy_subtype.specs.wy_core.CoreSeen.{seen_ty};
ghost use Rattle.wy_subtype.specs.Known.{WideOnly};
ghost use Rattle.wy_subtype.specs.wy_types.Names.{Up, types_of, shape_of, is_in_normal};
ghost use Rattle.wy_subtype.specs.wy_types.Questions.{IsOver, IsWideAbout, normal_of};
ghost use Rattle.wy_subtype.specs.wy_types.Recursion.{RecurThroughParts};
ghost use Rattle.wy_subtype.specs.wy_types.SeenTypes.{seen_conjuncts};
ghost use Rattle.wy_subtype.specs.wy_value.Datum.{Datum};

use crate::asking::first_part;
use std::alloc::Global;
use wy_items::Items;
use wy_subtype::{Names, Question, TypeFault, conjuncts_at, narrow_conjuncts, wy_core as tree};

/// The conjuncts of what is in the type, by its upward reading, in order. The union of them is that
/// reading. Each node stands where the type does. Wide exactly where the question about the type is.
/// The question becomes that about the type: beside what it reaches, the cost is linear in the type.
pub fn normal_in(
    alloc: Global,
    names: &Names,
    question: &mut Question,
    ty: &tree::Ty,
) -> Result<Items<tree::Conjunct>, TypeFault>
    requires recursion { RecurThroughParts (types_of names.now) }
    requires over { IsOver (types_of names.now) question.old }
    ensures value { IfOk result (λ made. seen_conjuncts made ≡ normal_of (types_of names.now) (seen_ty ty.now)) }
    ensures union { IfOk result (λ made. (d : Datum) → is_in_normal (shape_of (types_of names.now) d) (seen_conjuncts made) ≡ Up (types_of names.now) d (seen_ty ty.now)) }
    ensures wide { WideOnly result (IsWideAbout (types_of names.now) (seen_ty ty.now)) }
    ensures narrow { IfOk result (λ made. IsWideAbout (types_of names.now) (seen_ty ty.now) → ⊥) }
    ensures over { OnOk result (IsOver (types_of names.now) question.new) }
{
    question.ask(alloc, names, ty, ty)?;
    let part = first_part(alloc, question)?;
    let table = &question.table;
    let list = narrow_conjuncts(alloc, table, question.depth, part.as_slice())?;
    let made = conjuncts_at(alloc, table, question.depth, ty.at, list.as_slice())?;
    Ok(made)
}

/// The same for one type alone: the table is made for it, in time linear in the declared types.
pub fn normal(
    alloc: Global,
    names: &Names,
    ty: &tree::Ty,
) -> Result<Items<tree::Conjunct>, TypeFault>
    requires recursion { RecurThroughParts (types_of names.now) }
    ensures value { IfOk result (λ made. seen_conjuncts made ≡ normal_of (types_of names.now) (seen_ty ty.now)) }
    ensures union { IfOk result (λ made. (d : Datum) → is_in_normal (shape_of (types_of names.now) d) (seen_conjuncts made) ≡ Up (types_of names.now) d (seen_ty ty.now)) }
    ensures wide { WideOnly result (IsWideAbout (types_of names.now) (seen_ty ty.now)) }
    ensures narrow { IfOk result (λ made. IsWideAbout (types_of names.now) (seen_ty ty.now) → ⊥) }
{
    let mut question = names.question(alloc)?;
    normal_in(alloc, names, &mut question, ty)
}
