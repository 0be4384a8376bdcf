//! Flow types of numbers.
ghost use Rattle.std.specs.Prelude.{◌≡◌, map, IfOk};
ghost use Rattle.wy_core.specs.CoreSeen.{conjuncts_of, seen_atom, seen_conjunct, seen_ty};
ghost use Rattle.wy_vc_spec.specs.Named as named;
ghost use Rattle.wy_flow_spec.specs.typing.TypedPrograms.{flow_of};
ghost use Rattle.wy_vc.specs.Conjuncts as spec;

use std::alloc::{AllocError, Global};
use wy_core::{Atom, Conjunct, Ty, TyKind};
use wy_flow_spec::typing::Typed;

// Whether an atom is that of numbers.
fn is_whole(atom: &Atom) -> bool
    ensures value { result ≡ spec.is_whole (seen_atom atom.now) }
{
    match atom {
        Atom::Null => false,
        Atom::Bool => false,
        Atom::Int => true,
        Atom::Array(_) => false,
        Atom::Record(_) => false,
        Atom::AnyRecord => false,
    }
}

// Whether each conjunct is one of numbers.
fn are_whole(conjuncts: &[Conjunct]) -> bool
    ensures value { result ≡ named.all_numbers (conjuncts_of (map seen_conjunct conjuncts.now)) }
{
    for conjunct in conjuncts {
        if !is_whole(&conjunct.positive) {
            return false;
        }
    }
    true
}

// Whether a flow type has numbers alone.
fn is_number(ty: &Ty) -> bool
    ensures value { result ≡ named.is_number_type (seen_ty ty.now) }
{
    match &ty.kind {
        TyKind::Null => false,
        TyKind::Bool => false,
        TyKind::Int => false,
        TyKind::Any => false,
        TyKind::Void => false,
        TyKind::Record(_) => false,
        TyKind::Array(_) => false,
        TyKind::Union(_, _) => false,
        TyKind::Inter(_, _) => false,
        TyKind::Not(_) => false,
        TyKind::Named(_) => false,
        TyKind::Normal(conjuncts) => are_whole(conjuncts.as_slice()),
    }
}

/// Whether each expression is a number, by its number in the walk of flow typing. Linear in the flow types.
pub fn numbers_of(alloc: Global, typed: &Typed) -> Result<Vec<bool>, AllocError>
    ensures value { IfOk result (λ marks. marks.items ≡ map named.is_number_type (flow_of typed.now)) }
{
    let mut marks = Vec::new(alloc);
    for node in 0..typed.len() {
        marks.push(is_number(typed.flow(node)))?;
    }
    Ok(marks)
}
