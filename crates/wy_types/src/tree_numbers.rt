//! The numbers of the terms of a type.
ghost use Rattle.std.specs.Prelude.{◌≡◌, IfOk, OnOk};
ghost use Rattle.wy_core.specs.CoreSeen.{seen_ty, seen_atom};
ghost use Rattle.wy_types.specs.Numbering as numbering;
ghost use Rattle.wy_types.specs.SeenTypes.{seen_kind, seen_fields, seen_conjuncts, seen_atoms, seen_parts, seen_terms};

use crate::conjuncts::{Atom, Conjunct, Part, Signed};
use crate::numbering::Numbering;
use crate::table::Node;
use std::alloc::{AllocError, Global};
use wy_core as tree;
use wy_core::Name;
use wy_items::Items;

/// The number of a type, whose terms are put into the numbering where they aren't there, in time
/// linear in its size.
#[cycle(put)]
pub fn put_ty(alloc: Global, nodes: &mut Numbering, ty: &tree::Ty) -> Result<u32, AllocError>
    ensures nodes { OnOk result (nodes.new ≡ (numbering.put_ty nodes.old (seen_ty ty.now)).0) }
    ensures number { IfOk result (λ number. number ≡ (numbering.put_ty nodes.old (seen_ty ty.now)).1) }
{
    put_kind(alloc, nodes, &ty.kind)
}

#[cycle(put)]
fn put_kind(alloc: Global, nodes: &mut Numbering, kind: &tree::TyKind) -> Result<u32, AllocError>
    ensures nodes { OnOk result (nodes.new ≡ (numbering.put_ty nodes.old (seen_kind kind.now)).0) }
    ensures number { IfOk result (λ number. number ≡ (numbering.put_ty nodes.old (seen_kind kind.now)).1) }
{
    match kind {
        tree::TyKind::Null => nodes.put(Node::Null),
        tree::TyKind::Bool => nodes.put(Node::Bool),
        tree::TyKind::Int => nodes.put(Node::Int),
        tree::TyKind::Any => nodes.put(Node::Any),
        tree::TyKind::Void => nodes.put(Node::Void),
        tree::TyKind::Record(fields) => put_record(alloc, nodes, fields.as_slice()),
        tree::TyKind::Array(item) => {
            let term = put_ty(alloc, nodes, item.get())?;
            nodes.put(Node::Array(term))
        }
        tree::TyKind::Union(left, right) => {
            let first = put_ty(alloc, nodes, left.get())?;
            let second = put_ty(alloc, nodes, right.get())?;
            nodes.put(Node::Union(first, second))
        }
        tree::TyKind::Inter(left, right) => {
            let first = put_ty(alloc, nodes, left.get())?;
            let second = put_ty(alloc, nodes, right.get())?;
            nodes.put(Node::Inter(first, second))
        }
        tree::TyKind::Not(ty) => {
            let term = put_ty(alloc, nodes, ty.get())?;
            nodes.put(Node::Not(term))
        }
        tree::TyKind::Named(number) => nodes.put(Node::Named(*number)),
        tree::TyKind::Normal(conjuncts) => {
            let made = put_conjuncts(alloc, nodes, conjuncts.as_slice())?;
            nodes.put(Node::Normal(made))
        }
    }
}

#[cycle(put)]
fn put_record(
    alloc: Global,
    nodes: &mut Numbering,
    fields: &[(Name, tree::Ty)],
) -> Result<u32, AllocError>
    ensures nodes { OnOk result (nodes.new ≡ (numbering.put_record (numbering.put_fields nodes.old (seen_fields fields.now))).0) }
    ensures number { IfOk result (λ number. number ≡ (numbering.put_record (numbering.put_fields nodes.old (seen_fields fields.now))).1) }
{
    let made = put_fields(alloc, nodes, fields)?;
    nodes.put(Node::Record(made))
}

#[cycle(put)]
fn put_fields(
    alloc: Global,
    nodes: &mut Numbering,
    fields: &[(Name, tree::Ty)],
) -> Result<Items<(Name, u32)>, AllocError>
    ensures nodes { OnOk result (nodes.new ≡ (numbering.put_fields nodes.old (seen_fields fields.now)).0) }
    ensures made { IfOk result (λ made. made ≡ (numbering.put_fields nodes.old (seen_fields fields.now)).1) }
{
    let mut made = Items::new(alloc);
    for field in fields {
        let term = put_ty(alloc, nodes, &field.1)?;
        made.push((field.0.copy(alloc)?, term))?;
    }
    Ok(made)
}

#[cycle(put)]
fn put_conjuncts(
    alloc: Global,
    nodes: &mut Numbering,
    conjuncts: &[tree::Conjunct],
) -> Result<Items<Conjunct<u32>>, AllocError>
    ensures nodes { OnOk result (nodes.new ≡ (numbering.put_conjuncts nodes.old (seen_conjuncts conjuncts.now)).0) }
    ensures made { IfOk result (λ made. made ≡ (numbering.put_conjuncts nodes.old (seen_conjuncts conjuncts.now)).1) }
{
    let mut made = Items::new(alloc);
    for conjunct in conjuncts {
        let positive = put_atom(alloc, nodes, &conjunct.positive)?;
        let negatives = put_atoms(alloc, nodes, conjunct.negatives.as_slice())?;
        made.push(Conjunct {
            positive,
            negatives,
        })?;
    }
    Ok(made)
}

#[cycle(put)]
fn put_atoms(
    alloc: Global,
    nodes: &mut Numbering,
    atoms: &[tree::Atom],
) -> Result<Items<Atom<u32>>, AllocError>
    ensures nodes { OnOk result (nodes.new ≡ (numbering.put_atoms nodes.old (seen_atoms atoms.now)).0) }
    ensures made { IfOk result (λ made. made ≡ (numbering.put_atoms nodes.old (seen_atoms atoms.now)).1) }
{
    let mut made = Items::new(alloc);
    for atom in atoms {
        let atom = put_atom(alloc, nodes, atom)?;
        made.push(atom)?;
    }
    Ok(made)
}

#[cycle(put)]
fn put_atom(
    alloc: Global,
    nodes: &mut Numbering,
    atom: &tree::Atom,
) -> Result<Atom<u32>, AllocError>
    ensures nodes { OnOk result (nodes.new ≡ (numbering.put_atom nodes.old (seen_atom atom.now)).0) }
    ensures made { IfOk result (λ made. made ≡ (numbering.put_atom nodes.old (seen_atom atom.now)).1) }
{
    match atom {
        tree::Atom::Null => Ok(Atom::Null),
        tree::Atom::Bool => Ok(Atom::Bool),
        tree::Atom::Int => Ok(Atom::Int),
        tree::Atom::Array(part) => {
            let terms = put_terms(alloc, nodes, part.terms.as_slice())?;
            Ok(Atom::Array(Part { terms }))
        }
        tree::Atom::Record(parts) => Ok(Atom::Record(put_parts(alloc, nodes, parts.as_slice())?)),
        tree::Atom::AnyRecord => Ok(Atom::AnyRecord),
    }
}

#[cycle(put)]
fn put_parts(
    alloc: Global,
    nodes: &mut Numbering,
    parts: &[(Name, tree::Part)],
) -> Result<Items<(Name, Part<u32>)>, AllocError>
    ensures nodes { OnOk result (nodes.new ≡ (numbering.put_parts nodes.old (seen_parts parts.now)).0) }
    ensures made { IfOk result (λ made. made ≡ (numbering.put_parts nodes.old (seen_parts parts.now)).1) }
{
    let mut made = Items::new(alloc);
    for part in parts {
        let terms = put_terms(alloc, nodes, part.1.terms.as_slice())?;
        made.push((part.0.copy(alloc)?, Part { terms }))?;
    }
    Ok(made)
}

#[cycle(put)]
fn put_terms(
    alloc: Global,
    nodes: &mut Numbering,
    terms: &[tree::Signed],
) -> Result<Items<Signed<u32>>, AllocError>
    ensures nodes { OnOk result (nodes.new ≡ (numbering.put_terms nodes.old (seen_terms terms.now)).0) }
    ensures made { IfOk result (λ made. made ≡ (numbering.put_terms nodes.old (seen_terms terms.now)).1) }
{
    let mut made = Items::new(alloc);
    for signed in terms {
        let term = put_ty(alloc, nodes, &signed.term)?;
        made.push(Signed {
            term,
            up: signed.up,
            inside: signed.inside,
        })?;
    }
    Ok(made)
}
