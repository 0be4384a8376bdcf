//! Types of the core.
ghost use Rattle.std.specs.Prelude.{◌≡◌, [], IfOk};
ghost use Rattle.wy_ast.specs.SurfaceSeen as surface_seen;
ghost use Rattle.wy_core.specs.CoreSeen.{seen_ty, place_of_ty};
ghost use Rattle.wy_names_scope.specs.Places as places;
ghost use Rattle.wy_names_lower.specs.TypesLowered as lowered;
ghost use Rattle.wy_names_lower.specs.SeenPairs.{surface_field_tys, typed_pairs};

use crate::numbers::type_of;
use std::alloc::{AllocError, Global};
use std::collections::BTreeMap;
use wy_ast as surface;
use wy_core::Ty;
use wy_core_build::{
    any_ty, array_ty, bool_ty, int_ty, inter_ty, named_ty, not_ty, null_ty, record_ty, union_ty,
    void_ty,
};
use wy_data::Name;
use wy_items::{Boxed, Items};
use wy_names_scope::Table;

/// The type with numbers for its names and its fields rising. Linear in its size, beside the order of
/// the fields.
#[cycle(ty)]
pub fn in_ty(alloc: Global, scope: &Table, ty: &surface::Ty) -> Result<Ty, AllocError>
    ensures value { IfOk result (λ t. seen_ty t ≡ lowered.in_ty scope.now (surface_seen.seen_ty ty.now)) }
    ensures place { IfOk result (λ t. place_of_ty t ≡ places.place_of_ty (surface_seen.seen_ty ty.now)) }
{
    let at = ty.at;
    match &ty.kind {
        surface::TyKind::Null => Ok(null_ty(at)),
        surface::TyKind::Bool => Ok(bool_ty(at)),
        surface::TyKind::Int => Ok(int_ty(at)),
        surface::TyKind::Any => Ok(any_ty(at)),
        surface::TyKind::Void => Ok(void_ty(at)),
        surface::TyKind::Record(fields) => {
            let fields = in_fields(alloc, scope, fields.as_slice())?;
            Ok(record_ty(at, fields))
        }
        surface::TyKind::Array(item) => Ok(array_ty(at, boxed(alloc, scope, item)?)),
        surface::TyKind::Union(left, right) => {
            let left = boxed(alloc, scope, left)?;
            let right = boxed(alloc, scope, right)?;
            Ok(union_ty(at, left, right))
        }
        surface::TyKind::Inter(left, right) => {
            let left = boxed(alloc, scope, left)?;
            let right = boxed(alloc, scope, right)?;
            Ok(inter_ty(at, left, right))
        }
        surface::TyKind::Not(inner) => Ok(not_ty(at, boxed(alloc, scope, inner)?)),
        surface::TyKind::Named(name) => Ok(named_ty(at, type_of(scope.get(name)))),
    }
}

/// The core of a part.
#[cycle(ty)]
fn boxed(alloc: Global, scope: &Table, part: &Boxed<surface::Ty>) -> Result<Boxed<Ty>, AllocError>
    ensures value { IfOk result (λ t. seen_ty t ≡ lowered.in_ty scope.now (surface_seen.seen_ty part.now)) }
{
    let part = in_ty(alloc, scope, part.get())?;
    Boxed::new(alloc, part)
}

/// The core of a type, in a box.
pub fn boxed_ty(alloc: Global, scope: &Table, ty: &surface::Ty) -> Result<Boxed<Ty>, AllocError>
    ensures value { IfOk result (λ t. seen_ty t ≡ lowered.in_ty scope.now (surface_seen.seen_ty ty.now)) }
    ensures place { IfOk result (λ t. place_of_ty t ≡ places.place_of_ty (surface_seen.seen_ty ty.now)) }
{
    let ty = in_ty(alloc, scope, ty)?;
    Boxed::new(alloc, ty)
}

/// The fields by rising names.
#[cycle(ty)]
#[tactic(auto, using(crate::proofs::PairLemmas::placed_ty))]
fn in_fields(
    alloc: Global,
    scope: &Table,
    fields: &[(Name, surface::Ty)],
) -> Result<Items<(Name, Ty)>, AllocError>
    ensures value { IfOk result (λ made. typed_pairs made ≡ lowered.in_fields scope.now [] (surface_field_tys fields.now)) }
{
    let mut map = BTreeMap::new(alloc);
    for field in fields {
        let name = field.0.copy(alloc)?;
        let ty = in_ty(alloc, scope, &field.1)?;
        let held = Boxed::new(alloc, ty)?;
        map.insert(name, held)?;
    }
    listed(alloc, map)
}

/// The entries of the map, in its order.
fn listed(alloc: Global, map: BTreeMap<Name, Boxed<Ty>>) -> Result<Items<(Name, Ty)>, AllocError>
    ensures value { IfOk result (λ items. items ≡ map.entries) }
{
    let mut items = Items::new(alloc);
    for (name, ty) in map {
        items.push((name, ty.into_inner()))?;
    }
    Ok(items)
}
