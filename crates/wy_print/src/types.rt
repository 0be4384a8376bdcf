//! The text of types.
ghost use Rattle.std.specs.Prelude.{◌≡◌, ◌++◌, codes, OnOk};
ghost use Rattle.wy_print.specs.Pieces.{listed};
ghost use Rattle.wy_print.specs.TypeText as spec;

use crate::pieces::{write_bytes, write_name};
use wy_ast::{NoMemory, Ty, TyKind};
use wy_data::Name;

/// `a|b`
const UNION: u8 = 0;

/// `a&b`
const INTERSECTION: u8 = 1;

/// `a[]`
const SUFFIX: u8 = 2;

/// `!a`, a word, a name or a record
const TIGHT: u8 = 3;

// The level of the grammar that gives the type.
fn level(ty: &Ty) -> u8
    ensures value { result ≡ (spec.shown_ty ty.now).level }
{
    match &ty.kind {
        TyKind::Null | TyKind::Bool | TyKind::Int | TyKind::Any | TyKind::Void => TIGHT,
        TyKind::Record(_) => TIGHT,
        TyKind::Array(_) => SUFFIX,
        TyKind::Union(_, _) => UNION,
        TyKind::Inter(_, _) => INTERSECTION,
        TyKind::Not(_) => TIGHT,
        TyKind::Named(_) => TIGHT,
    }
}

/// Appends the type, with no bracket that isn't needed.
#[cycle(ty)]
#[tactic(auto, using(std::proofs::lemmas::List::append_assoc))]
pub fn write_ty(text: &mut Vec<u8>, ty: &Ty) -> Result<(), NoMemory>
    ensures { OnOk result (text.new.items ≡ text.old.items ++ spec.ty_text ty.now) }
{
    match &ty.kind {
        TyKind::Null => write_bytes(text, b"null"),
        TyKind::Bool => write_bytes(text, b"bool"),
        TyKind::Int => write_bytes(text, b"int"),
        TyKind::Any => write_bytes(text, b"any"),
        TyKind::Void => write_bytes(text, b"void"),
        TyKind::Record(fields) => {
            write_bytes(text, b"{")?;
            write_fields(text, fields.as_slice())?;
            write_bytes(text, b"}")?;
            Ok(())
        }
        TyKind::Array(item) => {
            write_part(text, SUFFIX, item.get())?;
            write_bytes(text, b"[]")?;
            Ok(())
        }
        TyKind::Union(left, right) => {
            write_part(text, UNION, left.get())?;
            write_bytes(text, b"|")?;
            write_part(text, INTERSECTION, right.get())?;
            Ok(())
        }
        TyKind::Inter(left, right) => {
            write_part(text, INTERSECTION, left.get())?;
            write_bytes(text, b"&")?;
            write_part(text, SUFFIX, right.get())?;
            Ok(())
        }
        TyKind::Not(ty) => {
            write_bytes(text, b"!")?;
            write_part(text, TIGHT, ty.get())?;
            Ok(())
        }
        TyKind::Named(name) => write_name(text, name),
    }
}

// Where a type of the level may stand: a lower one in brackets.
#[cycle(ty)]
#[tactic(auto, using(std::proofs::lemmas::List::append_assoc))]
fn write_part(text: &mut Vec<u8>, lowest: u8, ty: &Ty) -> Result<(), NoMemory>
    ensures { OnOk result (text.new.items ≡ text.old.items ++ spec.part lowest (spec.shown_ty ty.now)) }
{
    if level(ty) < lowest {
        write_bytes(text, b"(")?;
        write_ty(text, ty)?;
        write_bytes(text, b")")?;
        return Ok(());
    }
    write_ty(text, ty)
}

#[cycle(ty)]
#[tactic(auto, using(std::proofs::lemmas::List::append_assoc))]
fn write_fields(text: &mut Vec<u8>, fields: &[(Name, Ty)]) -> Result<(), NoMemory>
    ensures { OnOk result (text.new.items ≡ text.old.items ++ listed (spec.shown_field_tys fields.now)) }
{
    let [first, rest @ ..] = fields else {
        return Ok(());
    };
    write_typed(text, &first.1, &first.0)?;
    for field in rest {
        write_bytes(text, b", ")?;
        write_typed(text, &field.1, &field.0)?;
    }
    Ok(())
}

/// Appends the type, a space and the name.
#[cycle(ty)]
#[tactic(auto, using(std::proofs::lemmas::List::append_assoc))]
pub fn write_typed(text: &mut Vec<u8>, ty: &Ty, name: &Name) -> Result<(), NoMemory>
    ensures { OnOk result (text.new.items ≡ text.old.items ++ spec.typed (spec.shown_ty ty.now) name.now) }
{
    write_ty(text, ty)?;
    write_bytes(text, b" ")?;
    write_name(text, name)?;
    Ok(())
}
