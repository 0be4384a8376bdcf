//! Names in types.
ghost use Rattle.std.specs.Prelude.{◌≡◌, [], IfOk};
ghost use Rattle.wy_ast.specs.SurfaceSeen.{seen_ty};
ghost use Rattle.wy_names_recursion.specs.TypeNames as names;

use crate::context::is_type;
use std::alloc::{AllocError, Global};
use wy_ast::{Ty, TyKind};
use wy_data::Name;
use wy_names_scope::{Cause, Entry, Fault, Table, noted_where, place_of_ty};

/// The faults of a type: `Unknown` at a name that no type has, `Twice` at the type of a field whose
/// name came before in its record. Linear in the type's size.
#[cycle(ty)]
pub fn in_ty(
    alloc: Global,
    scope: &Table,
    found: Option<Fault>,
    ty: &Ty,
) -> Result<Option<Fault>, AllocError>
    ensures value { IfOk result (λ f. f ≡ names.in_ty scope.now (seen_ty ty.now) found) }
{
    match &ty.kind {
        TyKind::Null => Ok(found),
        TyKind::Bool => Ok(found),
        TyKind::Int => Ok(found),
        TyKind::Any => Ok(found),
        TyKind::Void => Ok(found),
        TyKind::Record(fields) => in_fields(alloc, scope, found, fields.as_slice()),
        TyKind::Array(item) => in_ty(alloc, scope, found, item.get()),
        TyKind::Union(left, right) => {
            let found = in_ty(alloc, scope, found, left.get())?;
            in_ty(alloc, scope, found, right.get())
        }
        TyKind::Inter(left, right) => {
            let found = in_ty(alloc, scope, found, left.get())?;
            in_ty(alloc, scope, found, right.get())
        }
        TyKind::Not(inner) => in_ty(alloc, scope, found, inner.get()),
        TyKind::Named(name) => {
            let unknown = !is_type(scope.get(name));
            Ok(noted_where(unknown, found, ty.at, Cause::Unknown))
        }
    }
}

#[cycle(ty)]
fn in_fields(
    alloc: Global,
    scope: &Table,
    found: Option<Fault>,
    fields: &[(Name, Ty)],
) -> Result<Option<Fault>, AllocError>
    ensures value { IfOk result (λ f. f ≡ names.in_fields scope.now [] (names.seen_fields fields.now) found) }
{
    let mut seen = Table::new(alloc);
    let mut found = found;
    for field in fields {
        found = in_ty(alloc, scope, found, &field.1)?;
        found = noted_where(
            seen.has(&field.0),
            found,
            place_of_ty(&field.1),
            Cause::Twice,
        );
        seen.put(alloc, &field.0, Entry::Variable(0))?;
    }
    Ok(found)
}
