//! Terms that are made for a schema: what a record or an array was before a change.
ghost use Rattle.std.specs.Prelude.{◌≡◌, ◌<◌, length, map, option_map, IfOk, IfSome};
ghost use Rattle.wy_term_subst.specs.wy_term.Nodes.{plain, plain_kind, grown, tree_at, HasPartsBelow};
ghost use Rattle.wy_facts.specs.Schema.{rise, has_name, has_field, field_before, kind_before_update, kind_before_set, as_division};

use std::alloc::{AllocError, Global};
use wy_term_subst::{Kind, Name, NoMemory, Node, Terms};

fn copied_names(alloc: Global, names: &[Name]) -> Result<Vec<Name>, AllocError>
    ensures { IfOk result (λ ns. ns.items ≡ names.now) }
{
    let mut copies = Vec::new(alloc);
    for name in names {
        copies.push(name.copy(alloc)?)?;
    }
    Ok(copies)
}

fn copied_kind(alloc: Global, kind: &Kind) -> Result<Kind, AllocError>
    ensures { IfOk result (λ k. plain_kind k ≡ plain_kind kind.now) }
{
    match kind {
        Kind::Null => Ok(Kind::Null),
        Kind::Bool => Ok(Kind::Bool),
        Kind::Int => Ok(Kind::Int),
        Kind::Array => Ok(Kind::Array),
        Kind::Record(names) => Ok(Kind::Record(copied_names(alloc, names)?)),
    }
}

// Whether the names rise.
fn rise(names: &[Name]) -> bool
    ensures value { result ≡ rise names.now }
{
    for i in 1..names.len() {
        if !names[i - 1].precedes(&names[i]) {
            return false;
        }
    }
    true
}

fn has_name(names: &[Name], name: &Name) -> bool
    ensures value { result ≡ has_name names.now name.now }
{
    for other in names {
        if other.is(name) {
            return true;
        }
    }
    false
}

// Whether a kind is that of records with rising fields, of which this is one.
fn has_field(kind: &Kind, name: &Name) -> bool
    ensures value { result ≡ has_field (plain_kind kind.now) name.now }
{
    match kind {
        Kind::Record(names) => rise(names) && has_name(names, name),
        _ => false,
    }
}

/// Of another field than the one that was set: the same field of the record before.
pub fn field_before(terms: &Terms, t: u32) -> Result<Option<Node>, NoMemory>
    requires { t < length terms.now }
    ensures value { IfOk result (λ o. option_map (λ n. grown (tree_at terms.now) (plain n)) o ≡ field_before (tree_at terms.now t)) }
    ensures within { IfOk result (λ o. IfSome o (λ n. HasPartsBelow (length terms.now) (plain n))) }
{
    match terms.node(t) {
        Node::Field(r, name) => match terms.node(*r) {
            Node::SetField(before, set, _) => {
                if set.is(name) {
                    Ok(None)
                } else {
                    Ok(Some(Node::Field(*before, name.copy(terms.allocator())?)))
                }
            }
            _ => Ok(None),
        },
        _ => Ok(None),
    }
}

/// Of a test of the kind of an array with another element: the same test of the array before.
pub fn kind_before_update(terms: &Terms, t: u32) -> Result<Option<Node>, NoMemory>
    requires { t < length terms.now }
    ensures value { IfOk result (λ o. option_map (λ n. grown (tree_at terms.now) (plain n)) o ≡ kind_before_update (tree_at terms.now t)) }
    ensures within { IfOk result (λ o. IfSome o (λ n. HasPartsBelow (length terms.now) (plain n))) }
{
    match terms.node(t) {
        Node::Kind(v, kind) => match terms.node(*v) {
            Node::Update(a, _, _) => Ok(Some(Node::Kind(
                *a,
                copied_kind(terms.allocator(), kind)?,
            ))),
            _ => Ok(None),
        },
        _ => Ok(None),
    }
}

/// Of a test of the kind of a record with a field that was set, which is one of those that the kind names: the same test
/// of the record before.
pub fn kind_before_set(terms: &Terms, t: u32) -> Result<Option<Node>, NoMemory>
    requires { t < length terms.now }
    ensures value { IfOk result (λ o. option_map (λ n. grown (tree_at terms.now) (plain n)) o ≡ kind_before_set (tree_at terms.now t)) }
    ensures within { IfOk result (λ o. IfSome o (λ n. HasPartsBelow (length terms.now) (plain n))) }
{
    match terms.node(t) {
        Node::Kind(v, kind) => match terms.node(*v) {
            Node::SetField(r, set, _) => {
                if has_field(kind, set) {
                    Ok(Some(Node::Kind(*r, copied_kind(terms.allocator(), kind)?)))
                } else {
                    Ok(None)
                }
            }
            _ => Ok(None),
        },
        _ => Ok(None),
    }
}

/// The dividend and the divisor of a quotient or a remainder.
pub fn division_at(terms: &Terms, t: u32) -> Option<(u32, u32)>
    requires { t < length terms.now }
    ensures value { option_map (λ d. (tree_at terms.now d.0, tree_at terms.now d.1)) result ≡ as_division (tree_at terms.now t) }
    ensures within { IfSome result (λ d. (d.0 < length terms.now) × (d.1 < length terms.now)) }
{
    match terms.node(t) {
        Node::Div(a, b) | Node::Mod(a, b) => Some((*a, *b)),
        _ => None,
    }
}
