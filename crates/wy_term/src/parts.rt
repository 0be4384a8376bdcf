//! A node's parts, and the same node with other parts.
ghost use Rattle.std.specs.Prelude.{◌≡◌, List, map, length, IfOk};
ghost use Rattle.wy_term.specs.Term.{every};
ghost use Rattle.wy_term.specs.Nodes.{of, plain, plain_kind};

use crate::node::{Kind, Node, Quantifier};
use std::alloc::{AllocError, Global};
use wy_value::Name;

// The numbers in the fields of a record.
fn field_parts(alloc: Global, fields: &[(Name, u32)]) -> Result<Vec<u32>, AllocError>
    ensures { IfOk result (λ ks. ks.items ≡ map (λ p. p.1) fields.now) }
{
    let mut parts = Vec::new(alloc);
    for field in fields {
        parts.push(field.1)?;
    }
    Ok(parts)
}

/// The numbers of a node's parts, in order, in time linear in how many they are.
pub fn parts_of(alloc: Global, node: &Node) -> Result<Vec<u32>, AllocError>
    ensures value { IfOk result (λ ks. ks.items ≡ (plain node.now).parts) }
{
    match node {
        Node::Number(_) | Node::IntName(_, _) | Node::ValName(_, _) => Ok(Vec::new(alloc)),
        Node::Null | Node::Bool(_) => Ok(Vec::new(alloc)),
        Node::Neg(s) | Node::Num(s) | Node::Len(s) => Vec::from_slice(alloc, &[*s]),
        Node::Int(s) | Node::Truth(s) | Node::Field(s, _) => Vec::from_slice(alloc, &[*s]),
        Node::Kind(s, _) | Node::In(s, _) | Node::Not(s) => Vec::from_slice(alloc, &[*s]),
        Node::Add(s, t) | Node::Sub(s, t) | Node::Mul(s, t) => Vec::from_slice(alloc, &[*s, *t]),
        Node::Div(s, t) | Node::Mod(s, t) | Node::Repeat(s, t) => {
            Vec::from_slice(alloc, &[*s, *t])
        }
        Node::Get(s, t) | Node::SetField(s, _, t) => Vec::from_slice(alloc, &[*s, *t]),
        Node::AtMost(s, t) | Node::Equal(s, t) => Vec::from_slice(alloc, &[*s, *t]),
        Node::Update(s, t, u) => Vec::from_slice(alloc, &[*s, *t, *u]),
        Node::Array(ks) | Node::And(ks) | Node::Or(ks) => Vec::from_slice(alloc, ks),
        Node::Record(fields) => field_parts(alloc, fields),
        Node::All(q) | Node::Some(q) => Vec::from_slice(alloc, &[q.from, q.below, q.body]),
    }
}

// The names of these fields with other numbers.
fn with_field_parts(
    alloc: Global,
    fields: &[(Name, u32)],
    parts: &[u32],
) -> Result<Vec<(Name, u32)>, AllocError>
    requires { length parts.now ≡ length fields.now }
    ensures names { IfOk result (λ fs. map (λ p. p.0) fs.items ≡ map (λ p. p.0) fields.now) }
    ensures parts { IfOk result (λ fs. map (λ p. p.1) fs.items ≡ parts.now) }
{
    let mut made = Vec::new(alloc);
    for (k, field) in fields.iter().enumerate() {
        made.push((field.0.copy(alloc)?, parts[k]))?;
    }
    Ok(made)
}

fn copied_names(alloc: Global, names: &[Name]) -> Result<Vec<Name>, AllocError>
    ensures { IfOk result (λ ns. ns.items ≡ names.now) }
{
    let mut copies = Vec::new(alloc);
    for name in names {
        copies.push(name.copy(alloc)?)?;
    }
    Ok(copies)
}

fn copied_kind(alloc: Global, kind: &Kind) -> Result<Kind, AllocError>
    ensures { IfOk result (λ k. plain_kind k ≡ plain_kind kind.now) }
{
    match kind {
        Kind::Null => Ok(Kind::Null),
        Kind::Bool => Ok(Kind::Bool),
        Kind::Int => Ok(Kind::Int),
        Kind::Array => Ok(Kind::Array),
        Kind::Record(names) => Ok(Kind::Record(copied_names(alloc, names)?)),
    }
}

// A quantifier with other parts.
fn with_bounds(alloc: Global, q: &Quantifier, parts: &[u32]) -> Result<Quantifier, AllocError>
    requires { length parts.now ≡ 3 }
    ensures { IfOk result (λ r. plain (Node.All r) ≡ of (every q.now.word q.now.number) parts.now) }
{
    Ok(Quantifier {
        word: q.word.copy(alloc)?,
        number: q.number,
        from: parts[0],
        below: parts[1],
        body: parts[2],
    })
}

/// The same node with other parts, as many as it had, in time linear in the size of the node.
pub fn with_parts(alloc: Global, node: &Node, parts: &[u32]) -> Result<Node, AllocError>
    requires { length parts.now ≡ length (plain node.now).parts }
    ensures value { IfOk result (λ n. plain n ≡ of (plain node.now).symbol parts.now) }
{
    match node {
        Node::Number(z) => Ok(Node::Number(*z)),
        Node::IntName(word, n) => Ok(Node::IntName(word.copy(alloc)?, *n)),
        Node::Add(_, _) => Ok(Node::Add(parts[0], parts[1])),
        Node::Sub(_, _) => Ok(Node::Sub(parts[0], parts[1])),
        Node::Neg(_) => Ok(Node::Neg(parts[0])),
        Node::Mul(_, _) => Ok(Node::Mul(parts[0], parts[1])),
        Node::Div(_, _) => Ok(Node::Div(parts[0], parts[1])),
        Node::Mod(_, _) => Ok(Node::Mod(parts[0], parts[1])),
        Node::Num(_) => Ok(Node::Num(parts[0])),
        Node::Len(_) => Ok(Node::Len(parts[0])),
        Node::ValName(word, n) => Ok(Node::ValName(word.copy(alloc)?, *n)),
        Node::Null => Ok(Node::Null),
        Node::Bool(b) => Ok(Node::Bool(*b)),
        Node::Int(_) => Ok(Node::Int(parts[0])),
        Node::Truth(_) => Ok(Node::Truth(parts[0])),
        Node::Array(_) => Ok(Node::Array(Vec::from_slice(alloc, parts)?)),
        Node::Repeat(_, _) => Ok(Node::Repeat(parts[0], parts[1])),
        Node::Update(_, _, _) => Ok(Node::Update(parts[0], parts[1], parts[2])),
        Node::Get(_, _) => Ok(Node::Get(parts[0], parts[1])),
        Node::Record(fields) => Ok(Node::Record(with_field_parts(alloc, fields, parts)?)),
        Node::Field(_, name) => Ok(Node::Field(parts[0], name.copy(alloc)?)),
        Node::SetField(_, name, _) => Ok(Node::SetField(parts[0], name.copy(alloc)?, parts[1])),
        Node::AtMost(_, _) => Ok(Node::AtMost(parts[0], parts[1])),
        Node::Equal(_, _) => Ok(Node::Equal(parts[0], parts[1])),
        Node::Kind(_, kind) => Ok(Node::Kind(parts[0], copied_kind(alloc, kind)?)),
        Node::In(_, n) => Ok(Node::In(parts[0], *n)),
        Node::All(q) => Ok(Node::All(with_bounds(alloc, q, parts)?)),
        Node::Some(q) => Ok(Node::Some(with_bounds(alloc, q, parts)?)),
        Node::Not(_) => Ok(Node::Not(parts[0])),
        Node::And(_) => Ok(Node::And(Vec::from_slice(alloc, parts)?)),
        Node::Or(_) => Ok(Node::Or(Vec::from_slice(alloc, parts)?)),
    }
}
