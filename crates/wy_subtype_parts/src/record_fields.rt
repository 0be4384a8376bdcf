//! The values at a field of records.
ghost use Rattle.std.specs.Prelude.{◌≡◌, ◌↔◌, [], true, false, IfOk, IfSome, OnOk, Some, None};
ghost use Rattle.wy_subtype.specs.wy_canon.Width.{Exactly};
ghost use Rattle.wy_subtype.specs.wy_core.CoreSeen.{seen_ty};
ghost use Rattle.wy_subtype_parts.specs.Fields as at_field;
ghost use Rattle.wy_subtype_parts.specs.Fields.{AllHave, HasNoUnion, IsField, IsUnion, IsValueIn, IsWideField, IsWideValues, SomeLacks};
ghost use Rattle.wy_subtype.specs.Known.{WideOnly};
ghost use Rattle.wy_subtype.specs.wy_types.Names.{Up, types_of};
ghost use Rattle.wy_subtype.specs.wy_types.Questions.{IsOver};
ghost use Rattle.wy_subtype.specs.wy_types.Recursion.{RecurThroughParts};
ghost use Rattle.wy_subtype.specs.wy_value.Datum.{Datum};

use crate::asking::{first_part, normal_type};
use crate::norms::norm_in;
use std::alloc::Global;
use wy_data::Name;
use wy_items::Items;
use wy_subtype::{
    Atom, Conjunct, Names, Part, Question, Table, TypeFault, conjuncts_at, dnf_part,
    inhabited_parts, united_conjuncts, wy_core as tree,
};

// Whether one of the fields has the name.
fn has_field(name: &Name, fields: &[(Name, Part<u32>)]) -> bool
    ensures value { result ≡ at_field.has_field name.now fields.now }
{
    for field in fields {
        if field.0.is(name) {
            return true;
        }
    }
    false
}

// Whether the atom is of records with the field.
fn atom_has(name: &Name, atom: &Atom<u32>) -> bool
    ensures value { result ≡ at_field.atom_has name.now atom.now }
{
    match atom {
        Atom::Record(fields) => has_field(name, fields.as_slice()),
        _ => false,
    }
}

// Whether each conjunct is of records with the field.
fn all_have(name: &Name, conjuncts: &[Conjunct<u32>]) -> bool
    ensures value { result ≡ at_field.all_have name.now conjuncts.now }
{
    for conjunct in conjuncts {
        if !atom_has(name, &conjunct.positive) {
            return false;
        }
    }
    true
}

// The list, and the conjuncts of the part of the field among these.
fn with_value(
    alloc: Global,
    table: &Table,
    depth: u32,
    name: &Name,
    made: Items<Conjunct<u32>>,
    way: &[(Name, Part<u32>)],
) -> Result<Items<Conjunct<u32>>, TypeFault>
    ensures value { IfOk result (λ all. all ≡ at_field.with_value table.now depth name.now made way.now) }
    ensures width { Exactly result (at_field.narrow_value table.now depth name.now way.now) }
{
    match way {
        [] => Ok(made),
        [field, rest @ ..] => {
            if !field.0.is(name) {
                return with_value(alloc, table, depth, name, made, rest);
            }
            let more = dnf_part(alloc, table, depth, field.1.terms.as_slice())?;
            let all = united_conjuncts(alloc, made, more.as_slice())?;
            Ok(all)
        }
    }
}

// The union of the field's parts over the ways.
fn values_at(
    alloc: Global,
    table: &Table,
    depth: u32,
    name: &Name,
    ways: &[Items<(Name, Part<u32>)>],
) -> Result<Items<Conjunct<u32>>, TypeFault>
    ensures value { IfOk result (λ all. all ≡ at_field.values_at table.now depth name.now [] ways.now) }
    ensures width { Exactly result (at_field.narrow_values table.now depth name.now ways.now) }
{
    let mut all = Items::new(alloc);
    for way in ways {
        all = with_value(alloc, table, depth, name, all, way.as_slice())?;
    }
    Ok(all)
}

// The union of the field's parts in the type, or none where some value in it has no such field.
fn value_union(
    alloc: Global,
    names: &Names,
    question: &mut Question,
    ty: &tree::Ty,
    name: &Name,
) -> Result<Option<tree::Ty>, TypeFault>
    requires recursion { RecurThroughParts (types_of names.now) }
    requires over { IsOver (types_of names.now) question.old }
    ensures value { IfOk result (λ made. IfSome made (λ union. IsUnion (types_of names.now) name.now (seen_ty ty.now) (seen_ty union))) }
    ensures set { IfOk result (λ made. IfSome made (λ union. (d : Datum) → (Up (types_of names.now) d (seen_ty union) ≡ true) ↔ IsValueIn (types_of names.now) name.now (seen_ty ty.now) d)) }
    ensures all { IfOk result (λ made. IfSome made (λ union. AllHave (types_of names.now) name.now (seen_ty ty.now))) }
    ensures lacks { IfOk result (λ made. made ≡ None → SomeLacks (types_of names.now) name.now (seen_ty ty.now)) }
    ensures missing { IfOk result (λ made. made ≡ None → HasNoUnion (types_of names.now) name.now (seen_ty ty.now)) }
    ensures wide { WideOnly result (IsWideValues (types_of names.now) name.now (seen_ty ty.now)) }
    ensures narrow { IfOk result (λ made. IsWideValues (types_of names.now) name.now (seen_ty ty.now) → ⊥) }
    ensures over { OnOk result (IsOver (types_of names.now) question.new) }
{
    question.ask(alloc, names, ty, ty)?;
    let part = first_part(alloc, question)?;
    let table = &question.table;
    let found = inhabited_parts(alloc, table, question.depth, part.as_slice())?;
    if !all_have(name, found.conjuncts.as_slice()) {
        return Ok(None);
    }
    let all = match values_at(alloc, table, question.depth, name, found.ways.as_slice()) {
        Ok(all) => all,
        Err(fault) => return Err(fault),
    };
    let made = conjuncts_at(alloc, table, question.depth, ty.at, all.as_slice())?;
    Ok(Some(normal_type(ty.at, made)))
}

/// What the values at the field may be, by the type's upward reading: exactly the data at this field
/// of some record in it, as a normal type; none exactly where some value in the type is no record
/// with the field. Each node stands where the type does. Wide exactly where the question about the
/// type is, or that about the values where they are asked about. The question becomes that about the
/// values: beside what both reach, the cost is linear in the type and in the union of the values.
pub fn field_in(
    alloc: Global,
    names: &Names,
    question: &mut Question,
    ty: &tree::Ty,
    name: &Name,
) -> Result<Option<tree::Ty>, TypeFault>
    requires recursion { RecurThroughParts (types_of names.now) }
    requires over { IsOver (types_of names.now) question.old }
    ensures value { IfOk result (λ made. IfSome made (λ values. IsField (types_of names.now) name.now (seen_ty ty.now) (seen_ty values))) }
    ensures set { IfOk result (λ made. IfSome made (λ values. (d : Datum) → (Up (types_of names.now) d (seen_ty values) ≡ true) ↔ IsValueIn (types_of names.now) name.now (seen_ty ty.now) d)) }
    ensures all { IfOk result (λ made. IfSome made (λ values. AllHave (types_of names.now) name.now (seen_ty ty.now))) }
    ensures lacks { IfOk result (λ made. made ≡ None → SomeLacks (types_of names.now) name.now (seen_ty ty.now)) }
    ensures wide { WideOnly result (IsWideField (types_of names.now) name.now (seen_ty ty.now)) }
    ensures narrow { IfOk result (λ made. IsWideField (types_of names.now) name.now (seen_ty ty.now) → ⊥) }
    ensures over { OnOk result (IsOver (types_of names.now) question.new) }
{
    let union = match value_union(alloc, names, question, ty, name)? {
        None => return Ok(None),
        Some(union) => union,
    };
    match norm_in(alloc, names, question, &union) {
        Ok(made) => Ok(Some(made)),
        Err(fault) => Err(fault),
    }
}

/// The same for one type alone: the table is made for it, in time linear in the declared types.
pub fn field(
    alloc: Global,
    names: &Names,
    ty: &tree::Ty,
    name: &Name,
) -> Result<Option<tree::Ty>, TypeFault>
    requires recursion { RecurThroughParts (types_of names.now) }
    ensures value { IfOk result (λ made. IfSome made (λ values. IsField (types_of names.now) name.now (seen_ty ty.now) (seen_ty values))) }
    ensures set { IfOk result (λ made. IfSome made (λ values. (d : Datum) → (Up (types_of names.now) d (seen_ty values) ≡ true) ↔ IsValueIn (types_of names.now) name.now (seen_ty ty.now) d)) }
    ensures all { IfOk result (λ made. IfSome made (λ values. AllHave (types_of names.now) name.now (seen_ty ty.now))) }
    ensures lacks { IfOk result (λ made. made ≡ None → SomeLacks (types_of names.now) name.now (seen_ty ty.now)) }
    ensures wide { WideOnly result (IsWideField (types_of names.now) name.now (seen_ty ty.now)) }
    ensures narrow { IfOk result (λ made. IsWideField (types_of names.now) name.now (seen_ty ty.now) → ⊥) }
{
    let mut question = names.question(alloc)?;
    field_in(alloc, names, &mut question, ty, name)
}
