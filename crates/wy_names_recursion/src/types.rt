//! The types that a type uses.
ghost use Rattle.std.specs.Prelude.{◌≡◌, OnOk};
ghost use Rattle.wy_ast.specs.SurfaceSeen.{seen_ty};
ghost use Rattle.wy_names_recursion.specs.Uses as uses;
ghost use Rattle.wy_names_recursion.specs.TypeUses as spec;

use crate::edges::{Edge, Way, put};
use std::alloc::AllocError;
use wy_ast::{Ty, TyKind};
use wy_data::Name;
use wy_items::Items;
use wy_names_scope::{Entry, Table};

/// Puts the types that the type uses behind the others. Linear in its size.
#[cycle(ty)]
pub fn in_ty(
    scope: &Table,
    edges: &mut Items<Edge>,
    from: u32,
    way: Way,
    ty: &Ty,
) -> Result<(), AllocError>
    ensures value { OnOk result (edges.new ≡ spec.in_ty scope.now from way (seen_ty ty.now) edges.old) }
{
    match &ty.kind {
        TyKind::Null => Ok(()),
        TyKind::Bool => Ok(()),
        TyKind::Int => Ok(()),
        TyKind::Any => Ok(()),
        TyKind::Void => Ok(()),
        TyKind::Record(fields) => in_fields(scope, edges, from, guarded(way), fields.as_slice()),
        TyKind::Array(item) => in_ty(scope, edges, from, guarded(way), item.get()),
        TyKind::Union(left, right) => {
            in_ty(scope, edges, from, way, left.get())?;
            in_ty(scope, edges, from, way, right.get())
        }
        TyKind::Inter(left, right) => {
            in_ty(scope, edges, from, way, left.get())?;
            in_ty(scope, edges, from, way, right.get())
        }
        TyKind::Not(inner) => in_ty(scope, edges, from, way, inner.get()),
        TyKind::Named(name) => named(scope.get(name), edges, from, way, ty.at),
    }
}

#[cycle(ty)]
fn in_fields(
    scope: &Table,
    edges: &mut Items<Edge>,
    from: u32,
    way: Way,
    fields: &[(Name, Ty)],
) -> Result<(), AllocError>
    ensures value { OnOk result (edges.new ≡ spec.in_fields scope.now from way (spec.seen_fields fields.now) edges.old) }
{
    for field in fields {
        in_ty(scope, edges, from, way, &field.1)?;
    }
    Ok(())
}

/// The use of a name, where it stands for a type.
fn named(
    entry: Option<Entry>,
    edges: &mut Items<Edge>,
    from: u32,
    way: Way,
    at: u32,
) -> Result<(), AllocError>
    ensures value { OnOk result (edges.new ≡ uses.type_named from way at entry edges.old) }
{
    match entry {
        None => Ok(()),
        Some(Entry::Type(_, to)) => put(edges, from, to, at, way),
        Some(Entry::Routine(_)) => Ok(()),
        Some(Entry::Property(_, _)) => Ok(()),
        Some(Entry::Variable(_)) => Ok(()),
    }
}

/// Inside a record or an array. A mention stays one.
fn guarded(way: Way) -> Way
    ensures value { result ≡ uses.guarded way }
{
    match way {
        Way::Bare => Way::Guarded,
        Way::Guarded => Way::Guarded,
        Way::Mention => Way::Mention,
        Way::Use => Way::Use,
    }
}
