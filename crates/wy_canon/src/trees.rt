//! The types for which numbers stand, and the conjuncts of these.
ghost use Rattle.std.specs.Prelude.{◌≡◌, IfOk};
ghost use Rattle.wy_types.specs.wy_core.CoreSeen.{seen_ty, seen_atom, seen_part};
ghost use Rattle.wy_types.specs.Reading as reading;
ghost use Rattle.wy_types.specs.SeenTypes.{seen_kind, seen_fields, seen_conjuncts, seen_atoms, seen_parts};

use crate::normal_forms::node_of;
use std::alloc::{AllocError, Global};
use wy_data::Name;
use wy_items::{Boxed, Items};
use wy_types::{Atom, Conjunct, Node, Part, Signed, Table, wy_core as tree};

/// The type for which the number stands, no deeper than `depth`, each node at `at`.
#[cycle(read)]
pub fn ty_at(
    alloc: Global,
    table: &Table,
    depth: u32,
    at: u32,
    term: u32,
) -> Result<tree::Ty, AllocError>
    ensures value { IfOk result (λ made. seen_ty made ≡ reading.ty_at table.now depth term) }
{
    if depth == 0 {
        return Ok(tree::Ty {
            at,
            kind: tree::TyKind::Void,
        });
    }
    let void = Node::Void;
    let node = node_of(table, term, &void);
    let kind = kind_at(alloc, table, depth - 1, at, node)?;
    Ok(tree::Ty { at, kind })
}

#[cycle(read)]
fn boxed_at(
    alloc: Global,
    table: &Table,
    depth: u32,
    at: u32,
    term: u32,
) -> Result<Boxed<tree::Ty>, AllocError>
    ensures value { IfOk result (λ made. seen_ty made ≡ reading.ty_at table.now depth term) }
{
    let ty = ty_at(alloc, table, depth, at, term)?;
    Boxed::new(alloc, ty)
}

#[cycle(read)]
fn kind_at(
    alloc: Global,
    table: &Table,
    depth: u32,
    at: u32,
    node: &Node,
) -> Result<tree::TyKind, AllocError>
    ensures value { IfOk result (λ made. seen_kind made ≡ reading.node_ty (reading.ty_at table.now depth) node.now) }
{
    match node {
        Node::Null => Ok(tree::TyKind::Null),
        Node::Bool => Ok(tree::TyKind::Bool),
        Node::Int => Ok(tree::TyKind::Int),
        Node::Any => Ok(tree::TyKind::Any),
        Node::Void => Ok(tree::TyKind::Void),
        Node::Record(fields) => {
            let made = fields_at(alloc, table, depth, at, fields.as_slice())?;
            Ok(tree::TyKind::Record(made))
        }
        Node::Array(item) => {
            let item = boxed_at(alloc, table, depth, at, *item)?;
            Ok(tree::TyKind::Array(item))
        }
        Node::Union(a, b) => {
            let left = boxed_at(alloc, table, depth, at, *a)?;
            let right = boxed_at(alloc, table, depth, at, *b)?;
            Ok(tree::TyKind::Union(left, right))
        }
        Node::Inter(a, b) => {
            let left = boxed_at(alloc, table, depth, at, *a)?;
            let right = boxed_at(alloc, table, depth, at, *b)?;
            Ok(tree::TyKind::Inter(left, right))
        }
        Node::Not(a) => {
            let ty = boxed_at(alloc, table, depth, at, *a)?;
            Ok(tree::TyKind::Not(ty))
        }
        Node::Named(number) => Ok(tree::TyKind::Named(*number)),
        Node::Normal(conjuncts) => {
            let made = conjuncts_at(alloc, table, depth, at, conjuncts.as_slice())?;
            Ok(tree::TyKind::Normal(made))
        }
    }
}

#[cycle(read)]
fn fields_at(
    alloc: Global,
    table: &Table,
    depth: u32,
    at: u32,
    fields: &[(Name, u32)],
) -> Result<Items<(Name, tree::Ty)>, AllocError>
    ensures value { IfOk result (λ made. seen_fields made ≡ reading.field_tys_at (reading.ty_at table.now depth) fields.now) }
{
    let mut made = Items::new(alloc);
    for field in fields {
        let ty = ty_at(alloc, table, depth, at, field.1)?;
        made.push((field.0.copy(alloc)?, ty))?;
    }
    Ok(made)
}

/// The conjuncts as trees, each node at `at`.
#[cycle(read)]
pub fn conjuncts_at(
    alloc: Global,
    table: &Table,
    depth: u32,
    at: u32,
    conjuncts: &[Conjunct<u32>],
) -> Result<Items<tree::Conjunct>, AllocError>
    ensures value { IfOk result (λ made. seen_conjuncts made ≡ reading.conjuncts_at (reading.ty_at table.now depth) conjuncts.now) }
{
    let mut made = Items::new(alloc);
    for conjunct in conjuncts {
        let positive = atom_at(alloc, table, depth, at, &conjunct.positive)?;
        let negatives = atoms_at(alloc, table, depth, at, conjunct.negatives.as_slice())?;
        made.push(tree::Conjunct {
            positive,
            negatives,
        })?;
    }
    Ok(made)
}

#[cycle(read)]
fn atoms_at(
    alloc: Global,
    table: &Table,
    depth: u32,
    at: u32,
    atoms: &[Atom<u32>],
) -> Result<Items<tree::Atom>, AllocError>
    ensures value { IfOk result (λ made. seen_atoms made ≡ reading.atoms_at (reading.ty_at table.now depth) atoms.now) }
{
    let mut made = Items::new(alloc);
    for atom in atoms {
        let atom = atom_at(alloc, table, depth, at, atom)?;
        made.push(atom)?;
    }
    Ok(made)
}

#[cycle(read)]
fn atom_at(
    alloc: Global,
    table: &Table,
    depth: u32,
    at: u32,
    atom: &Atom<u32>,
) -> Result<tree::Atom, AllocError>
    ensures value { IfOk result (λ made. seen_atom made ≡ reading.atom_at (reading.ty_at table.now depth) atom.now) }
{
    match atom {
        Atom::Null => Ok(tree::Atom::Null),
        Atom::Bool => Ok(tree::Atom::Bool),
        Atom::Int => Ok(tree::Atom::Int),
        Atom::Array(part) => {
            let part = part_at(alloc, table, depth, at, part)?;
            Ok(tree::Atom::Array(part))
        }
        Atom::Record(parts) => {
            let made = parts_at(alloc, table, depth, at, parts.as_slice())?;
            Ok(tree::Atom::Record(made))
        }
        Atom::AnyRecord => Ok(tree::Atom::AnyRecord),
    }
}

#[cycle(read)]
fn parts_at(
    alloc: Global,
    table: &Table,
    depth: u32,
    at: u32,
    parts: &[(Name, Part<u32>)],
) -> Result<Items<(Name, tree::Part)>, AllocError>
    ensures value { IfOk result (λ made. seen_parts made ≡ reading.field_parts_at (reading.ty_at table.now depth) parts.now) }
{
    let mut made = Items::new(alloc);
    for part in parts {
        let ty = part_at(alloc, table, depth, at, &part.1)?;
        made.push((part.0.copy(alloc)?, ty))?;
    }
    Ok(made)
}

#[cycle(read)]
fn part_at(
    alloc: Global,
    table: &Table,
    depth: u32,
    at: u32,
    part: &Part<u32>,
) -> Result<tree::Part, AllocError>
    ensures value { IfOk result (λ made. seen_part made ≡ reading.part_at (reading.ty_at table.now depth) part.now.terms) }
{
    let mut made = Items::new(alloc);
    for signed in part.terms.as_slice() {
        let term = ty_at(alloc, table, depth, at, signed.term)?;
        made.push(tree::Signed {
            term,
            up: signed.up,
            inside: signed.inside,
        })?;
    }
    Ok(tree::Part { terms: made })
}
