//! Types of the core, made from their parts.
ghost use Rattle.std.specs.Prelude.{◌≡◌};
ghost use Rattle.wy_core.specs.CoreSeen.{seen_ty, place_of_ty};
ghost use Rattle.wy_core.specs.Types as tree;
ghost use Rattle.wy_core_build.specs.SeenFields.{seen_field_tys};

use wy_core::{Ty, TyKind};
use wy_data::Name;
use wy_items::{Boxed, Items};

/// `null`
pub fn null_ty(at: u32) -> Ty
    ensures value { seen_ty result ≡ tree.NullTy }
    ensures place { place_of_ty result ≡ at }
{
    Ty {
        at,
        kind: TyKind::Null,
    }
}

/// `bool`
pub fn bool_ty(at: u32) -> Ty
    ensures value { seen_ty result ≡ tree.BoolTy }
    ensures place { place_of_ty result ≡ at }
{
    Ty {
        at,
        kind: TyKind::Bool,
    }
}

/// `int`
pub fn int_ty(at: u32) -> Ty
    ensures value { seen_ty result ≡ tree.IntTy }
    ensures place { place_of_ty result ≡ at }
{
    Ty {
        at,
        kind: TyKind::Int,
    }
}

/// `any`
pub fn any_ty(at: u32) -> Ty
    ensures value { seen_ty result ≡ tree.AnyTy }
    ensures place { place_of_ty result ≡ at }
{
    Ty {
        at,
        kind: TyKind::Any,
    }
}

/// `void`
pub fn void_ty(at: u32) -> Ty
    ensures value { seen_ty result ≡ tree.VoidTy }
    ensures place { place_of_ty result ≡ at }
{
    Ty {
        at,
        kind: TyKind::Void,
    }
}

/// Records with these fields, in this order.
pub fn record_ty(at: u32, fields: Items<(Name, Ty)>) -> Ty
    ensures value { seen_ty result ≡ tree.RecordTy (seen_field_tys fields) }
    ensures place { place_of_ty result ≡ at }
{
    Ty {
        at,
        kind: TyKind::Record(fields),
    }
}

/// Arrays of these items.
pub fn array_ty(at: u32, item: Boxed<Ty>) -> Ty
    ensures value { seen_ty result ≡ tree.ArrayTy (seen_ty item) }
    ensures place { place_of_ty result ≡ at }
{
    Ty {
        at,
        kind: TyKind::Array(item),
    }
}

/// What is in one of the two.
pub fn union_ty(at: u32, left: Boxed<Ty>, right: Boxed<Ty>) -> Ty
    ensures value { seen_ty result ≡ tree.UnionTy (seen_ty left) (seen_ty right) }
    ensures place { place_of_ty result ≡ at }
{
    Ty {
        at,
        kind: TyKind::Union(left, right),
    }
}

/// What is in both.
pub fn inter_ty(at: u32, left: Boxed<Ty>, right: Boxed<Ty>) -> Ty
    ensures value { seen_ty result ≡ tree.InterTy (seen_ty left) (seen_ty right) }
    ensures place { place_of_ty result ≡ at }
{
    Ty {
        at,
        kind: TyKind::Inter(left, right),
    }
}

/// What isn't in it.
pub fn not_ty(at: u32, inner: Boxed<Ty>) -> Ty
    ensures value { seen_ty result ≡ tree.NotTy (seen_ty inner) }
    ensures place { place_of_ty result ≡ at }
{
    Ty {
        at,
        kind: TyKind::Not(inner),
    }
}

/// The declared type with this number.
pub fn named_ty(at: u32, number: u32) -> Ty
    ensures value { seen_ty result ≡ tree.NamedTy number }
    ensures place { place_of_ty result ≡ at }
{
    Ty {
        at,
        kind: TyKind::Named(number),
    }
}
