//! The conjuncts of a type that have a value, as a type.
ghost use Rattle.std.specs.Prelude.{◌≡◌, IfOk, OnOk};
ghost use Rattle.wy_subtype.specs.wy_core.CoreSeen.{seen_ty};
ghost use Rattle.wy_subtype_parts.specs.Norms.{IsNorm};
ghost use Rattle.wy_subtype.specs.Known.{WideOnly};
ghost use Rattle.wy_subtype.specs.wy_types.Names.{Up, types_of};
ghost use Rattle.wy_subtype.specs.wy_types.Questions.{IsOver, IsWideAbout};
ghost use Rattle.wy_subtype.specs.wy_types.Recursion.{RecurThroughParts};
ghost use Rattle.wy_subtype.specs.wy_value.Datum.{Datum};

use crate::asking::{first_part, normal_type};
use std::alloc::Global;
use wy_subtype::{Names, Question, TypeFault, conjuncts_at, valued_conjuncts, wy_core as tree};

/// The conjuncts of the type that have a value, by its upward reading, as a normal type: the same
/// set. Each node stands where the type does. Wide exactly where the question about the type is. The
/// question becomes that about the type: beside what it reaches, the cost is linear in the type.
pub fn norm_in(
    alloc: Global,
    names: &Names,
    question: &mut Question,
    ty: &tree::Ty,
) -> Result<tree::Ty, TypeFault>
    requires recursion { RecurThroughParts (types_of names.now) }
    requires over { IsOver (types_of names.now) question.old }
    ensures value { IfOk result (λ made. IsNorm (types_of names.now) (seen_ty ty.now) (seen_ty made)) }
    ensures same { IfOk result (λ made. (d : Datum) → Up (types_of names.now) d (seen_ty made) ≡ Up (types_of names.now) d (seen_ty ty.now)) }
    ensures wide { WideOnly result (IsWideAbout (types_of names.now) (seen_ty ty.now)) }
    ensures narrow { IfOk result (λ made. IsWideAbout (types_of names.now) (seen_ty ty.now) → ⊥) }
    ensures over { OnOk result (IsOver (types_of names.now) question.new) }
{
    question.ask(alloc, names, ty, ty)?;
    let part = first_part(alloc, question)?;
    let table = &question.table;
    let list = valued_conjuncts(alloc, table, question.depth, part.as_slice())?;
    let made = conjuncts_at(alloc, table, question.depth, ty.at, list.as_slice())?;
    Ok(normal_type(ty.at, made))
}
