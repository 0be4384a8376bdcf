//! Which types of the core are the same, places aside.
ghost use Rattle.std.specs.Prelude.{◌≡◌, IsTrue, ◌↔◌, map};
ghost use Rattle.wy_core.specs.CoreSeen.{seen_ty, seen_conjunct, seen_atom, seen_part};
ghost use Rattle.wy_core.specs.same.SeenParts.{seen_field, seen_field_part, seen_signed};

use crate::{Atom, Conjunct, Part, Signed, Ty, TyKind};
use wy_value::Name;

/// Whether both are the same type, wherever they stand. It takes no memory, and its time is linear
/// in the smaller type.
#[cycle(same_ty)]
pub fn same_ty(a: &Ty, b: &Ty) -> bool
    ensures complete { IsTrue result ↔ (seen_ty a.now ≡ seen_ty b.now) }
{
    match (&a.kind, &b.kind) {
        (TyKind::Null, TyKind::Null) => true,
        (TyKind::Bool, TyKind::Bool) => true,
        (TyKind::Int, TyKind::Int) => true,
        (TyKind::Any, TyKind::Any) => true,
        (TyKind::Void, TyKind::Void) => true,
        (TyKind::Record(a), TyKind::Record(b)) => same_fields(a.as_slice(), b.as_slice()),
        (TyKind::Array(a), TyKind::Array(b)) => same_ty(a.get(), b.get()),
        (TyKind::Union(a, b), TyKind::Union(c, d)) => {
            same_ty(a.get(), c.get()) && same_ty(b.get(), d.get())
        }
        (TyKind::Inter(a, b), TyKind::Inter(c, d)) => {
            same_ty(a.get(), c.get()) && same_ty(b.get(), d.get())
        }
        (TyKind::Not(a), TyKind::Not(b)) => same_ty(a.get(), b.get()),
        (TyKind::Named(a), TyKind::Named(b)) => *a == *b,
        (TyKind::Normal(a), TyKind::Normal(b)) => same_conjuncts(a.as_slice(), b.as_slice()),
        _ => false,
    }
}

/// Whether both are the same conjunct, places aside.
#[cycle(same_ty)]
pub fn same_conjunct(a: &Conjunct, b: &Conjunct) -> bool
    ensures complete { IsTrue result ↔ (seen_conjunct a.now ≡ seen_conjunct b.now) }
{
    same_atom(&a.positive, &b.positive)
        && same_atoms(a.negatives.as_slice(), b.negatives.as_slice())
}

/// Whether both are the same atom, places aside.
#[cycle(same_ty)]
pub fn same_atom(a: &Atom, b: &Atom) -> bool
    ensures complete { IsTrue result ↔ (seen_atom a.now ≡ seen_atom b.now) }
{
    match (a, b) {
        (Atom::Null, Atom::Null) => true,
        (Atom::Bool, Atom::Bool) => true,
        (Atom::Int, Atom::Int) => true,
        (Atom::Array(a), Atom::Array(b)) => same_part(a, b),
        (Atom::Record(a), Atom::Record(b)) => same_field_parts(a.as_slice(), b.as_slice()),
        (Atom::AnyRecord, Atom::AnyRecord) => true,
        _ => false,
    }
}

/// Whether both are the same part, places aside.
#[cycle(same_ty)]
pub fn same_part(a: &Part, b: &Part) -> bool
    ensures complete { IsTrue result ↔ (seen_part a.now ≡ seen_part b.now) }
{
    same_terms(a.terms.as_slice(), b.terms.as_slice())
}

/// Whether both are the same signed term, places aside.
#[cycle(same_ty)]
pub fn same_signed(a: &Signed, b: &Signed) -> bool
    ensures complete { IsTrue result ↔ (seen_signed a.now ≡ seen_signed b.now) }
{
    a.up == b.up && a.inside == b.inside && same_ty(&a.term, &b.term)
}

#[cycle(same_ty)]
fn same_fields(a: &[(Name, Ty)], b: &[(Name, Ty)]) -> bool
    ensures complete { IsTrue result ↔ (map seen_field a.now ≡ map seen_field b.now) }
{
    if a.len() != b.len() {
        return false;
    }
    for i in 0..a.len() {
        if !a[i].0.is(&b[i].0) || !same_ty(&a[i].1, &b[i].1) {
            return false;
        }
    }
    true
}

#[cycle(same_ty)]
fn same_field_parts(a: &[(Name, Part)], b: &[(Name, Part)]) -> bool
    ensures complete { IsTrue result ↔ (map seen_field_part a.now ≡ map seen_field_part b.now) }
{
    if a.len() != b.len() {
        return false;
    }
    for i in 0..a.len() {
        if !a[i].0.is(&b[i].0) || !same_part(&a[i].1, &b[i].1) {
            return false;
        }
    }
    true
}

#[cycle(same_ty)]
fn same_conjuncts(a: &[Conjunct], b: &[Conjunct]) -> bool
    ensures complete { IsTrue result ↔ (map seen_conjunct a.now ≡ map seen_conjunct b.now) }
{
    if a.len() != b.len() {
        return false;
    }
    for i in 0..a.len() {
        if !same_conjunct(&a[i], &b[i]) {
            return false;
        }
    }
    true
}

#[cycle(same_ty)]
fn same_atoms(a: &[Atom], b: &[Atom]) -> bool
    ensures complete { IsTrue result ↔ (map seen_atom a.now ≡ map seen_atom b.now) }
{
    if a.len() != b.len() {
        return false;
    }
    for i in 0..a.len() {
        if !same_atom(&a[i], &b[i]) {
            return false;
        }
    }
    true
}

#[cycle(same_ty)]
fn same_terms(a: &[Signed], b: &[Signed]) -> bool
    ensures complete { IsTrue result ↔ (map seen_signed a.now ≡ map seen_signed b.now) }
{
    if a.len() != b.len() {
        return false;
    }
    for i in 0..a.len() {
        if !same_signed(&a[i], &b[i]) {
            return false;
        }
    }
    true
}
