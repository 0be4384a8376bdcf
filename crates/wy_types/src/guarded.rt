//! Declared types of which none uses a name bare, that is, outside of records and arrays.
ghost use Rattle.std.specs.Prelude.{◌≡◌, true, map};
ghost use Rattle.wy_core.specs.CoreSeen.{seen_ty};
ghost use Rattle.wy_types.specs.Names.{seen_declared, types_of};
ghost use Rattle.wy_types.specs.Recursion as recursion;
ghost use Rattle.wy_types.specs.Recursion.{RecurThroughParts};
ghost use Rattle.wy_types.specs.SeenTypes.{seen_kind};

use crate::names::{Declared, Names};
use wy_core::{Ty, TyKind};

#[cycle(guarded)]
fn is_guarded(ty: &Ty) -> bool
    ensures value { result ≡ recursion.is_guarded (seen_ty ty.now) }
{
    is_guarded_kind(&ty.kind)
}

#[cycle(guarded)]
fn is_guarded_kind(kind: &TyKind) -> bool
    ensures value { result ≡ recursion.is_guarded (seen_kind kind.now) }
{
    match kind {
        TyKind::Null => true,
        TyKind::Bool => true,
        TyKind::Int => true,
        TyKind::Any => true,
        TyKind::Void => true,
        TyKind::Record(_) => true,
        TyKind::Array(_) => true,
        TyKind::Union(left, right) => is_guarded(left.get()) && is_guarded(right.get()),
        TyKind::Inter(left, right) => is_guarded(left.get()) && is_guarded(right.get()),
        TyKind::Not(ty) => is_guarded(ty.get()),
        TyKind::Named(_) => false,
        TyKind::Normal(_) => true,
    }
}

fn all_guarded(declared: &[Declared]) -> bool
    ensures value { result ≡ recursion.are_guarded (map seen_declared declared.now) }
{
    for one in declared {
        if !is_guarded(&one.ty) {
            return false;
        }
    }
    true
}

impl Names {
    /// Whether no declared type uses a name bare. Their recursion then passes through records or
    /// arrays. It takes no memory.
    #[tactic(auto, using(crate::proofs::GuardLemmas::guarded_recur))]
    pub fn are_guarded(&self) -> bool
        ensures value { result ≡ recursion.are_guarded (types_of self.now) }
        ensures recursion { result ≡ true → RecurThroughParts (types_of self.now) }
    {
        all_guarded(self.declared.as_slice())
    }
}
