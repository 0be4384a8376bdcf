//! Kinds of data.
ghost use Rattle.std.specs.Prelude.{◌≡◌, ◌<◌, map, length, option_map, IfOk};
ghost use Rattle.wy_check_nodes.specs.wy_term.Nodes.{plain_kind, tree_at};
ghost use Rattle.wy_check_nodes.specs.wy_term.Same.{same_kind};
ghost use Rattle.wy_check_nodes.specs.wy_term.Rewriting.{kind_given};
ghost use Rattle.wy_check_nodes.specs.wy_check_spec.valid.Kinds.{of_two_kinds};

use std::alloc::{AllocError, Global};
use wy_check_nodes::{Kind, NoMemory, Node, Terms};
use wy_data::Name;

/// Whether two kinds are the same, in time linear in the size of the smaller one.
pub fn same_kind(k: &Kind, l: &Kind) -> bool
    ensures { result ≡ same_kind (plain_kind k.now) (plain_kind l.now) }
{
    *k == *l
}

fn copied_names(alloc: Global, names: &[Name]) -> Result<Vec<Name>, AllocError>
    ensures { IfOk result (λ ns. ns.items ≡ names.now) }
{
    let mut copies = Vec::new(alloc);
    for name in names {
        copies.push(name.copy(alloc)?)?;
    }
    Ok(copies)
}

/// The same kind.
pub fn copied_kind(alloc: Global, kind: &Kind) -> Result<Kind, AllocError>
    ensures { IfOk result (λ k. plain_kind k ≡ plain_kind kind.now) }
{
    match kind {
        Kind::Null => Ok(Kind::Null),
        Kind::Bool => Ok(Kind::Bool),
        Kind::Int => Ok(Kind::Int),
        Kind::Array => Ok(Kind::Array),
        Kind::Record(names) => Ok(Kind::Record(copied_names(alloc, names)?)),
    }
}

// The names of a record's fields.
fn names_of(alloc: Global, fields: &[(Name, u32)]) -> Result<Vec<Name>, AllocError>
    ensures { IfOk result (λ ns. ns.items ≡ map (λ p. p.0) fields.now) }
{
    let mut names = Vec::new(alloc);
    for field in fields {
        names.push(field.0.copy(alloc)?)?;
    }
    Ok(names)
}

/// The kind of a constant, or of a datum that is written out, in time linear in the size of a record's names.
pub fn kind_given(terms: &Terms, v: u32) -> Result<Option<Kind>, NoMemory>
    requires { v < length terms.now }
    ensures { IfOk result (λ o. option_map plain_kind o ≡ kind_given (tree_at terms.now v)) }
{
    match terms.node(v) {
        Node::Null => Ok(Some(Kind::Null)),
        Node::Bool(_) | Node::Truth(_) => Ok(Some(Kind::Bool)),
        Node::Int(_) => Ok(Some(Kind::Int)),
        Node::Array(_) | Node::Repeat(_, _) => Ok(Some(Kind::Array)),
        Node::Record(fields) => Ok(Some(Kind::Record(names_of(terms.allocator(), fields)?))),
        _ => Ok(None),
    }
}

/// Whether these are two different kinds.
pub fn of_two_kinds(k: &Option<Kind>, l: &Option<Kind>) -> bool
    ensures { result ≡ of_two_kinds (option_map plain_kind k.now) (option_map plain_kind l.now) }
{
    match (k, l) {
        (Some(a), Some(b)) => !same_kind(a, b),
        (Some(_), None) => false,
        (None, _) => false,
    }
}
