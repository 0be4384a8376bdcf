//! The records of a type with another value at a field.
ghost use Rattle.std.specs.Prelude.{◌≡◌, IfOk, OnOk};
ghost use Rattle.wy_subtype.specs.wy_core.CoreSeen.{seen_ty};
ghost use Rattle.wy_subtype.specs.Known.{WideOnly};
ghost use Rattle.wy_subtype.specs.wy_types.Names.{types_of};
ghost use Rattle.wy_subtype.specs.wy_types.Questions as questions;
ghost use Rattle.wy_subtype.specs.wy_types.Questions.{IsOver};
ghost use Rattle.wy_subtype.specs.wy_types.Recursion.{RecurThroughParts};
ghost use Rattle.wy_subtype.specs.wy_types.SeenTypes.{seen_conjuncts, seen_kind};
ghost use Rattle.wy_subtype.specs.wy_core.Types.{NormalTy};
ghost use Rattle.wy_subtype_parts.specs.updates.Updates.{IsWith, IsWideWith, second_part};

use crate::updates::replaced::records_of;
use std::alloc::{AllocError, Global};
use wy_data::Name;
use wy_items::Items;
use wy_subtype::{
    Names, Question, Signed, TypeFault, conjuncts_at, inhabited_parts, with_sides, wy_core as tree,
};

// What is in the first type of the question.
fn first_part(alloc: Global, question: &Question) -> Result<Items<Signed<u32>>, AllocError>
    ensures value { IfOk result (λ part. part ≡ questions.first_part question.now) }
{
    let nothing = Items::new(alloc);
    with_sides(
        &question.table,
        question.depth,
        nothing,
        true,
        true,
        question.first,
    )
}

// What is in the second type of the question.
fn second_terms(alloc: Global, question: &Question) -> Result<Items<Signed<u32>>, AllocError>
    ensures value { IfOk result (λ part. part ≡ second_part question.now) }
{
    let nothing = Items::new(alloc);
    with_sides(
        &question.table,
        question.depth,
        nothing,
        true,
        true,
        question.second,
    )
}

fn normal_kind(made: Items<tree::Conjunct>) -> tree::TyKind
    ensures value { seen_kind result ≡ NormalTy (seen_conjuncts made) }
{
    tree::TyKind::Normal(made)
}

// The union of the conjuncts, at this place.
fn normal_type(at: u32, made: Items<tree::Conjunct>) -> tree::Ty
    ensures value { seen_ty result ≡ NormalTy (seen_conjuncts made) }
{
    tree::Ty {
        at,
        kind: normal_kind(made),
    }
}

/// The records of a type, by its upward reading, whose value at the field is replaced by one of
/// `value`: the union of the ways of its records in which each field's part has a value, each way
/// once, with `value` at the field. Each node stands where the type does. Wide exactly where the
/// question about the type is. The question becomes that of both types: beside what the type reaches,
/// the cost is linear in both types and in the ways, and a look for an equal way is linear in those
/// before it.
pub fn with_field_in(
    alloc: Global,
    names: &Names,
    question: &mut Question,
    ty: &tree::Ty,
    name: &Name,
    value: &tree::Ty,
) -> Result<tree::Ty, TypeFault>
    requires recursion { RecurThroughParts (types_of names.now) }
    requires over { IsOver (types_of names.now) question.old }
    ensures value { IfOk result (λ made. IsWith (types_of names.now) name.now (seen_ty ty.now) (seen_ty value.now) (seen_ty made)) }
    ensures wide { WideOnly result (IsWideWith (types_of names.now) (seen_ty ty.now) (seen_ty value.now)) }
    ensures narrow { IfOk result (λ made. IsWideWith (types_of names.now) (seen_ty ty.now) (seen_ty value.now) → ⊥) }
    ensures over { OnOk result (IsOver (types_of names.now) question.new) }
{
    question.ask(alloc, names, ty, value)?;
    let part = first_part(alloc, question)?;
    let terms = second_terms(alloc, question)?;
    let table = &question.table;
    let found = inhabited_parts(alloc, table, question.depth, part.as_slice())?;
    let all = records_of(alloc, name, terms.as_slice(), found.ways.as_slice())?;
    let made = conjuncts_at(alloc, table, question.depth, ty.at, all.as_slice())?;
    Ok(normal_type(ty.at, made))
}
