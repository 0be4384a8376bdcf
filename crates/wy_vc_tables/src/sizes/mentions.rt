//! Whether a type mentions a marked name.
ghost use Rattle.std.specs.Prelude.{◌≡◌, ◌||◌, map};
ghost use Rattle.wy_core.specs.CoreSeen.{field_tys_of, seen_ty};
ghost use Rattle.wy_vc_spec.specs.wy_sem.TypeTests.{mentions, mentions_fields};
ghost use Rattle.wy_vc_tables.specs.sizes.Marks.{mark_at as marked};

use wy_core::{Ty, TyKind};
use wy_data::Name;

fn is_marked(marks: &[bool], number: u32) -> bool
    ensures value { result ≡ marked marks.now number }
{
    match marks.get(number as usize) {
        None => false,
        Some(mark) => *mark,
    }
}

fn either(a: bool, b: bool) -> bool
    ensures value { result ≡ a || b }
{
    a || b
}

/// Whether one of the names that a type mentions, as it is written, is marked. Linear in the type.
#[cycle(mentions)]
pub fn mentions_marked(marks: &[bool], ty: &Ty) -> bool
    ensures value { result ≡ mentions (marked marks.now) (seen_ty ty.now) }
{
    match &ty.kind {
        TyKind::Null => false,
        TyKind::Bool => false,
        TyKind::Int => false,
        TyKind::Any => false,
        TyKind::Void => false,
        TyKind::Record(fields) => fields_mention(marks, fields.as_slice()),
        TyKind::Array(item) => mentions_marked(marks, item.get()),
        TyKind::Union(left, right) => {
            let first = mentions_marked(marks, left.get());
            let second = mentions_marked(marks, right.get());
            either(first, second)
        }
        TyKind::Inter(left, right) => {
            let first = mentions_marked(marks, left.get());
            let second = mentions_marked(marks, right.get());
            either(first, second)
        }
        TyKind::Not(ty) => mentions_marked(marks, ty.get()),
        TyKind::Named(number) => is_marked(marks, *number),
        TyKind::Normal(_) => false,
    }
}

#[cycle(mentions)]
fn fields_mention(marks: &[bool], fields: &[(Name, Ty)]) -> bool
    ensures value { result ≡ mentions_fields (marked marks.now) (field_tys_of (map (λ f. (f.0, seen_ty f.1)) fields.now)) }
{
    for field in fields {
        if mentions_marked(marks, &field.1) {
            return true;
        }
    }
    false
}
