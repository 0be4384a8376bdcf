//! The types that are asked about.
ghost use Rattle.std.specs.Prelude.{◌≡◌, IfOk, map};
ghost use Rattle.wy_core.specs.CoreSeen.{field_tys_of, seen_ty};
ghost use Rattle.wy_core.specs.Types as types;
ghost use Rattle.wy_types.specs.SeenTypes.{seen_kind};

use std::alloc::{AllocError, Global};
use wy_core::{Ty, TyKind};
use wy_data::Name;
use wy_flow_spec::environment::Shared;
use wy_items::{Boxed, Items};

/// A type without parts, at this place.
pub fn plain(at: u32, kind: TyKind) -> Ty
    ensures value { seen_ty result ≡ seen_kind kind }
{
    Ty { at, kind }
}

/// The arrays of items in the type.
pub fn array_of(alloc: Global, at: u32, item: Ty) -> Result<Ty, AllocError>
    ensures value { IfOk result (λ t. seen_ty t ≡ types.ArrayTy (seen_ty item)) }
{
    let item = Boxed::new(alloc, item)?;
    Ok(Ty {
        at,
        kind: TyKind::Array(item),
    })
}

/// What is in one of both types.
pub fn union_of(alloc: Global, at: u32, left: &Ty, right: &Ty) -> Result<Ty, AllocError>
    ensures value { IfOk result (λ t. seen_ty t ≡ types.UnionTy (seen_ty left.now) (seen_ty right.now)) }
{
    let left = Boxed::new(alloc, left.copy(alloc)?)?;
    let right = Boxed::new(alloc, right.copy(alloc)?)?;
    Ok(Ty {
        at,
        kind: TyKind::Union(left, right),
    })
}

/// What is in both types.
pub fn inter_of(alloc: Global, at: u32, left: &Ty, right: &Ty) -> Result<Ty, AllocError>
    ensures value { IfOk result (λ t. seen_ty t ≡ types.InterTy (seen_ty left.now) (seen_ty right.now)) }
{
    let left = Boxed::new(alloc, left.copy(alloc)?)?;
    let right = Boxed::new(alloc, right.copy(alloc)?)?;
    Ok(Ty {
        at,
        kind: TyKind::Inter(left, right),
    })
}

/// What is not in the type.
pub fn not_of(alloc: Global, at: u32, ty: &Ty) -> Result<Ty, AllocError>
    ensures value { IfOk result (λ t. seen_ty t ≡ types.NotTy (seen_ty ty.now)) }
{
    let ty = Boxed::new(alloc, ty.copy(alloc)?)?;
    Ok(Ty {
        at,
        kind: TyKind::Not(ty),
    })
}

/// The records of such fields.
pub fn record_of(alloc: Global, at: u32, fields: &[(Name, Shared)]) -> Result<Ty, AllocError>
    ensures value { IfOk result (λ t. seen_ty t ≡ types.RecordTy (field_tys_of (map (λ f. (f.0, seen_ty f.1)) fields.now))) }
{
    let mut made = Items::new(alloc);
    for field in fields {
        let name = field.0.copy(alloc)?;
        let ty = field.1.get().copy(alloc)?;
        made.push((name, ty))?;
    }
    Ok(Ty {
        at,
        kind: TyKind::Record(made),
    })
}
