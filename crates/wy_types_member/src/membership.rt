//! Which values are in a type.
ghost use Rattle.std.specs.Prelude.{◌≡◌, length, map};
ghost use Rattle.wy_core.specs.CoreSeen.{atoms_of, conjuncts_of, field_parts_of, field_tys_of, part_of, seen_atom, seen_conjunct, seen_part, seen_ty};
ghost use Rattle.wy_types_member.specs.Parts.{in_seen_conjunct, seen_field, seen_field_part, seen_signed};
ghost use Rattle.wy_types.specs.Names.{Up, each_in_ty, each_terms_in, field_readers, fields_in_tys, is_array, is_array_of, is_in_atom, is_in_none, is_in_normal, is_in_ty, is_record_of, is_record_with, item_readers, named_in, parts_in as spec_parts_in, shape_of, terms_in, ty_in, types_of};
ghost use Rattle.wy_value.specs.Seen.{seen, seen_fields, seen_items};
ghost use Rattle.wy_value.specs.Values.{names_of};

use crate::kinds::{is_null, is_record, is_truth, is_whole};
use wy_core::{Atom, Conjunct, Part, Ty, TyKind};
use wy_data::Name;
use wy_types::Names;
use wy_value::Value;

/// Whether the value is in the type, where each constrained name stands for its definition (and, under a complement, for
/// nothing). It takes no memory. The time is linear in the value's size, times the size of the type and of the declared types
/// that it names without a record or an array between, and it recurses as deep as the value nests and those types do.
pub fn member(names: &Names, value: &Value, ty: &Ty) -> bool
    ensures up { result ≡ Up (types_of names.now) (seen value.now) (seen_ty ty.now) }
{
    in_ty(names, names.declared.len(), value, true, ty)
}

// Whether the value is in the type by this reading, names in it unfolded no deeper than the number.
#[cycle(within)]
fn in_ty(names: &Names, bare: usize, value: &Value, up: bool, ty: &Ty) -> bool
    ensures value { result ≡ ty_in (named_in (types_of names.now) bare (shape_of (types_of names.now) (seen value.now))) (shape_of (types_of names.now) (seen value.now)) up (seen_ty ty.now) }
{
    match &ty.kind {
        TyKind::Null => is_null(value),
        TyKind::Bool => is_truth(value),
        TyKind::Int => is_whole(value),
        TyKind::Any => true,
        TyKind::Void => false,
        TyKind::Record(tys) => in_record(names, value, up, tys.as_slice()),
        TyKind::Array(item) => in_array(names, value, up, item.get()),
        TyKind::Union(first, second) => {
            let first = first.get();
            let second = second.get();
            if in_ty(names, bare, value, up, first) {
                return true;
            }
            in_ty(names, bare, value, up, second)
        }
        TyKind::Inter(first, second) => {
            let first = first.get();
            let second = second.get();
            if !in_ty(names, bare, value, up, first) {
                return false;
            }
            in_ty(names, bare, value, up, second)
        }
        TyKind::Not(operand) => {
            let operand = operand.get();
            !in_ty(names, bare, value, !up, operand)
        }
        TyKind::Named(number) => in_named(names, bare, value, up, *number),
        TyKind::Normal(conjuncts) => in_normal(names, value, conjuncts.as_slice()),
    }
}

// Whether the value is in what the name stands for.
#[cycle(within)]
fn in_named(names: &Names, bare: usize, value: &Value, up: bool, number: u32) -> bool
    ensures value { result ≡ named_in (types_of names.now) bare (shape_of (types_of names.now) (seen value.now)) up number }
{
    if bare == 0 {
        return false;
    }
    match names.get(number) {
        None => false,
        Some(declared) => {
            if !up && declared.constrained {
                return false;
            }
            in_ty(names, bare - 1, value, up, &declared.ty)
        }
    }
}

// Whether the value is an array of such items.
#[cycle(within)]
fn in_array(names: &Names, value: &Value, up: bool, ty: &Ty) -> bool
    ensures value { result ≡ is_array (shape_of (types_of names.now) (seen value.now)) up (seen_ty ty.now) }
{
    match value {
        Value::Null => false,
        Value::Bool(_) => false,
        Value::Int(_) => false,
        Value::Array(items) => each_in(names, items.as_slice(), up, ty),
        Value::Record(_) => false,
    }
}

// Whether each item is in the type.
#[cycle(within)]
fn each_in(names: &Names, items: &[Value], up: bool, ty: &Ty) -> bool
    ensures value { result ≡ each_in_ty (item_readers (types_of names.now) (seen_items items.now)) up (seen_ty ty.now) }
{
    let bare = names.declared.len();
    for item in items {
        if !in_ty(names, bare, item, up, ty) {
            return false;
        }
    }
    true
}

// Whether the value is a record of such fields.
#[cycle(within)]
fn in_record(names: &Names, value: &Value, up: bool, tys: &[(Name, Ty)]) -> bool
    ensures value { result ≡ is_record_with (shape_of (types_of names.now) (seen value.now)) up (field_tys_of (map seen_field tys.now)) }
{
    match value {
        Value::Null => false,
        Value::Bool(_) => false,
        Value::Int(_) => false,
        Value::Array(_) => false,
        Value::Record(fields) => fields_in(names, fields.as_slice(), up, tys),
    }
}

// Whether the fields have these names, and each value is in its type.
#[cycle(within)]
fn fields_in(names: &Names, fields: &[(Name, Value)], up: bool, tys: &[(Name, Ty)]) -> bool
    ensures value { result ≡ fields_in_tys (names_of (seen_fields fields.now)) (field_readers (types_of names.now) (seen_fields fields.now)) up (field_tys_of (map seen_field tys.now)) }
{
    if fields.len() != tys.len() {
        return false;
    }
    let bare = names.declared.len();
    for i in 0..fields.len() {
        let field = &fields[i];
        let ty = &tys[i];
        if !field.0.is(&ty.0) {
            return false;
        }
        if !in_ty(names, bare, &field.1, up, &ty.1) {
            return false;
        }
    }
    true
}

// Whether the value is in one of the conjuncts.
#[cycle(within)]
fn in_normal(names: &Names, value: &Value, conjuncts: &[Conjunct]) -> bool
    ensures value { result ≡ is_in_normal (shape_of (types_of names.now) (seen value.now)) (conjuncts_of (map seen_conjunct conjuncts.now)) }
{
    for conjunct in conjuncts {
        if in_conjunct(names, value, conjunct) {
            return true;
        }
    }
    false
}

// Whether the value is in the conjunct.
#[cycle(within)]
fn in_conjunct(names: &Names, value: &Value, conjunct: &Conjunct) -> bool
    ensures value { result ≡ in_seen_conjunct (shape_of (types_of names.now) (seen value.now)) (seen_conjunct conjunct.now) }
{
    if !in_atom(names, value, &conjunct.positive) {
        return false;
    }
    in_none(names, value, conjunct.negatives.as_slice())
}

// Whether the value is in none of the atoms.
#[cycle(within)]
fn in_none(names: &Names, value: &Value, atoms: &[Atom]) -> bool
    ensures value { result ≡ is_in_none (shape_of (types_of names.now) (seen value.now)) (atoms_of (map seen_atom atoms.now)) }
{
    for atom in atoms {
        if in_atom(names, value, atom) {
            return false;
        }
    }
    true
}

// Whether the value is in the atom.
#[cycle(within)]
fn in_atom(names: &Names, value: &Value, atom: &Atom) -> bool
    ensures value { result ≡ is_in_atom (shape_of (types_of names.now) (seen value.now)) (seen_atom atom.now) }
{
    match atom {
        Atom::Null => is_null(value),
        Atom::Bool => is_truth(value),
        Atom::Int => is_whole(value),
        Atom::Array(part) => array_of(names, value, part),
        Atom::Record(parts) => record_of(names, value, parts.as_slice()),
        Atom::AnyRecord => is_record(value),
    }
}

// Whether the value is an array of items in the part.
#[cycle(within)]
fn array_of(names: &Names, value: &Value, part: &Part) -> bool
    ensures value { result ≡ is_array_of (shape_of (types_of names.now) (seen value.now)) (seen_part part.now) }
{
    match value {
        Value::Null => false,
        Value::Bool(_) => false,
        Value::Int(_) => false,
        Value::Array(items) => each_in_part(names, items.as_slice(), part),
        Value::Record(_) => false,
    }
}

// Whether each item is in the part.
#[cycle(within)]
fn each_in_part(names: &Names, items: &[Value], part: &Part) -> bool
    ensures value { result ≡ each_terms_in (item_readers (types_of names.now) (seen_items items.now)) (seen_part part.now) }
{
    for item in items {
        if !in_part(names, item, part) {
            return false;
        }
    }
    true
}

// Whether the value is a record of fields in these parts.
#[cycle(within)]
fn record_of(names: &Names, value: &Value, parts: &[(Name, Part)]) -> bool
    ensures value { result ≡ is_record_of (shape_of (types_of names.now) (seen value.now)) (field_parts_of (map seen_field_part parts.now)) }
{
    match value {
        Value::Null => false,
        Value::Bool(_) => false,
        Value::Int(_) => false,
        Value::Array(_) => false,
        Value::Record(fields) => parts_in(names, fields.as_slice(), parts),
    }
}

// Whether the fields have these names, and each value is in its part.
#[cycle(within)]
fn parts_in(names: &Names, fields: &[(Name, Value)], parts: &[(Name, Part)]) -> bool
    ensures value { result ≡ spec_parts_in (names_of (seen_fields fields.now)) (field_readers (types_of names.now) (seen_fields fields.now)) (field_parts_of (map seen_field_part parts.now)) }
{
    if fields.len() != parts.len() {
        return false;
    }
    for i in 0..fields.len() {
        let field = &fields[i];
        let part = &parts[i];
        if !field.0.is(&part.0) {
            return false;
        }
        if !in_part(names, &field.1, &part.1) {
            return false;
        }
    }
    true
}

// Whether the value is in all of the terms.
#[cycle(within)]
fn in_part(names: &Names, value: &Value, part: &Part) -> bool
    ensures value { result ≡ terms_in (is_in_ty (types_of names.now) (shape_of (types_of names.now) (seen value.now))) (seen_part part.now) }
{
    let bare = names.declared.len();
    for signed in part.terms.as_slice() {
        if in_ty(names, bare, value, signed.up, &signed.term) != signed.inside {
            return false;
        }
    }
    true
}
