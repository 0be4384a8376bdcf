//! The parts of terms.
use std::alloc::Global;
use wy_explain_source::NoMemory;
use wy_term::{Node, Terms};

/// The node of a term, if there is one with this number.
pub fn node_of(terms: &Terms, term: u32) -> Option<&Node> {
    if (term as usize) < terms.len() {
        return Some(terms.node(term));
    }
    None
}

/// The node with this number, if there is one.
pub fn node_at(terms: &Terms, number: usize) -> Option<&Node> {
    match u32::try_from(number) {
        Ok(term) => node_of(terms, term),
        Err(_) => None,
    }
}

/// Puts the parts of a node behind others.
pub fn put_parts(node: &Node, into: &mut Vec<u32>) -> Result<(), NoMemory> {
    match node {
        Node::Number(_) | Node::IntName(_, _) | Node::ValName(_, _) | Node::Null | Node::Bool(_) =>
            {}
        Node::Neg(s)
        | Node::Num(s)
        | Node::Len(s)
        | Node::Int(s)
        | Node::Truth(s)
        | Node::Field(s, _)
        | Node::Kind(s, _)
        | Node::In(s, _)
        | Node::Not(s) => into.push(*s)?,
        Node::Add(s, t)
        | Node::Sub(s, t)
        | Node::Mul(s, t)
        | Node::Div(s, t)
        | Node::Mod(s, t)
        | Node::Repeat(s, t)
        | Node::Get(s, t)
        | Node::SetField(s, _, t)
        | Node::AtMost(s, t)
        | Node::Equal(s, t) => {
            into.push(*s)?;
            into.push(*t)?;
        }
        Node::Update(s, t, u) => {
            into.push(*s)?;
            into.push(*t)?;
            into.push(*u)?;
        }
        Node::All(quantifier) | Node::Some(quantifier) => {
            into.push(quantifier.from)?;
            into.push(quantifier.below)?;
            into.push(quantifier.body)?;
        }
        Node::Array(parts) | Node::And(parts) | Node::Or(parts) => {
            into.extend_from_slice(parts.as_slice())?;
        }
        Node::Record(fields) => {
            for field in fields {
                into.push(field.1)?;
            }
        }
    }
    Ok(())
}

/// The term and all that it is made of, each once: a mark for each term of the list.
pub fn made_of(alloc: Global, terms: &Terms, term: u32) -> Result<Vec<bool>, NoMemory> {
    made_of_all(alloc, terms, &[term])
}

/// The same of several terms.
pub fn made_of_all(alloc: Global, terms: &Terms, roots: &[u32]) -> Result<Vec<bool>, NoMemory> {
    let mut marks: Vec<bool> = vec![in alloc; false; terms.len()]?;
    let mut rest: Vec<u32> = Vec::from_slice(alloc, roots)?;
    for _ in 0..u64::MAX {
        let next = match rest.pop() {
            Some(next) => next,
            None => break,
        };
        let number = next as usize;
        if number >= marks.len() || marks[number] {
            continue;
        }
        marks[number] = true;
        match node_of(terms, next) {
            Some(node) => put_parts(node, &mut rest)?,
            None => {}
        }
    }
    Ok(marks)
}

/// Whether the parts are `s <= t` and `t <= s`.
pub fn is_equation(terms: &Terms, parts: &[u32]) -> bool {
    let [first, second] = parts else {
        return false;
    };
    match (node_of(terms, *first), node_of(terms, *second)) {
        (Some(Node::AtMost(s, t)), Some(Node::AtMost(u, v))) => *s == *v && *t == *u,
        _ => false,
    }
}

/// Whether the parts are `s < t` and `t < s`.
pub fn is_difference(terms: &Terms, parts: &[u32]) -> bool {
    let [first, second] = parts else {
        return false;
    };
    match (node_of(terms, *first), node_of(terms, *second)) {
        (Some(Node::Not(one)), Some(Node::Not(other))) => is_equation(terms, &[*one, *other]),
        _ => false,
    }
}

/// The sides of the first part of an equation or a difference.
pub fn sides(terms: &Terms, parts: &[u32]) -> Option<(u32, u32)> {
    let first = match parts.first() {
        Some(first) => *first,
        None => return None,
    };
    match node_of(terms, first) {
        Some(Node::AtMost(s, t)) => Some((*s, *t)),
        Some(Node::Not(inner)) => match node_of(terms, *inner) {
            Some(Node::AtMost(s, t)) => Some((*t, *s)),
            _ => None,
        },
        _ => None,
    }
}

/// Whether it is a name, of a number or of a datum.
pub fn is_name(node: &Node) -> bool {
    matches!(node, Node::IntName(_, _) | Node::ValName(_, _))
}

/// Whether it is a part, a length, an update, a product or the like: more than a name, a number or a sum.
pub fn is_compound(node: &Node) -> bool {
    match node {
        Node::Mul(_, _)
        | Node::Div(_, _)
        | Node::Mod(_, _)
        | Node::Len(_)
        | Node::Array(_)
        | Node::Repeat(_, _)
        | Node::Update(_, _, _)
        | Node::Get(_, _)
        | Node::Record(_)
        | Node::Field(_, _)
        | Node::SetField(_, _, _) => true,
        _ => false,
    }
}
