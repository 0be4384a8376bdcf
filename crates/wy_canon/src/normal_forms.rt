//! From a term to its conjuncts.
ghost use Rattle.std.specs.Prelude.{◌≡◌, [], true, IfOk};
ghost use Rattle.wy_canon.specs.Width.{Exactly};
ghost use Rattle.wy_types.specs.Conjuncts as conjuncts;
ghost use Rattle.wy_types.specs.Membership as terms;

use crate::fault::TypeFault;
use crate::lists::with_signed;
use crate::meets::{either, merge};
use crate::outs::{all_or_nothing, atom_or_out, normal_or_out, nothing_or_all};
use std::alloc::{AllocError, Global};
use wy_data::Name;
use wy_items::Items;
use wy_types::{Atom, Conjunct, Definition, Node, Part, Signed, Table};

/// The node of a term; `void` for a number that has none.
pub fn node_of<'a>(table: &'a Table, term: u32, void: &'a Node) -> &'a Node
    requires { void.now ≡ Node.Void }
    ensures value { result.now ≡ terms.node_of table.now term }
{
    match table.nodes.get(term) {
        None => void,
        Some(node) => node,
    }
}

fn definition_of(table: &Table, number: u32) -> Option<Definition>
    ensures value { result ≡ terms.definition_of table.now number }
{
    match table.definitions.get(number as usize) {
        None => None,
        Some(definition) => Some(*definition),
    }
}

/// The terms, and the sides of a term, taken apart no deeper than `depth`.
#[cycle(sides)]
pub fn with_sides(
    table: &Table,
    depth: u32,
    part: Items<Signed<u32>>,
    up: bool,
    inside: bool,
    term: u32,
) -> Result<Items<Signed<u32>>, AllocError>
    ensures value { IfOk result (λ made. made ≡ conjuncts.with_sides table.now depth part up inside term) }
{
    if depth == 0 {
        return with_signed(part, Signed { term, up, inside });
    }
    let void = Node::Void;
    let node = node_of(table, term, &void);
    node_sides(table, depth - 1, part, up, inside, term, node)
}

#[cycle(sides)]
fn node_sides(
    table: &Table,
    depth: u32,
    part: Items<Signed<u32>>,
    up: bool,
    inside: bool,
    term: u32,
    node: &Node,
) -> Result<Items<Signed<u32>>, AllocError>
    ensures value { IfOk result (λ made. made ≡ conjuncts.node_sides (conjuncts.with_sides table.now depth) part up inside term node.now) }
{
    match (inside, node) {
        (true, Node::Any) => Ok(part),
        (true, Node::Inter(a, b)) => {
            let part = with_sides(table, depth, part, up, true, *a)?;
            with_sides(table, depth, part, up, true, *b)
        }
        (false, Node::Union(a, b)) => {
            let part = with_sides(table, depth, part, up, false, *a)?;
            with_sides(table, depth, part, up, false, *b)
        }
        (_, Node::Not(a)) => with_sides(table, depth, part, !up, !inside, *a),
        _ => with_signed(part, Signed { term, up, inside }),
    }
}

fn part_of(
    alloc: Global,
    table: &Table,
    depth: u32,
    up: bool,
    term: u32,
) -> Result<Part<u32>, AllocError>
    ensures value { IfOk result (λ made. made.terms ≡ conjuncts.with_sides table.now depth [] up true term) }
{
    Ok(Part {
        terms: with_sides(table, depth, Items::new(alloc), up, true, term)?,
    })
}

fn parts_of(
    alloc: Global,
    table: &Table,
    depth: u32,
    up: bool,
    fields: &[(Name, u32)],
) -> Result<Items<(Name, Part<u32>)>, AllocError>
    ensures value { IfOk result (λ made. made ≡ conjuncts.parts_of table.now depth up fields.now) }
{
    let mut made = Items::new(alloc);
    for field in fields {
        let part = part_of(alloc, table, depth, up, field.1)?;
        made.push((field.0.copy(alloc)?, part))?;
    }
    Ok(made)
}

/// The conjuncts of a term, names unfolded no deeper than `depth`, parts taken apart no deeper than
/// `sides`.
#[cycle(dnf)]
pub fn dnf(
    alloc: Global,
    table: &Table,
    sides: u32,
    depth: u32,
    up: bool,
    inside: bool,
    term: u32,
) -> Result<Items<Conjunct<u32>>, TypeFault>
    ensures value { IfOk result (λ made. made ≡ conjuncts.dnf table.now sides depth up inside term) }
    ensures width { Exactly result (conjuncts.narrow table.now sides depth up inside term) }
{
    if depth == 0 {
        return Ok(nothing_or_all(alloc, inside)?);
    }
    let void = Node::Void;
    let node = node_of(table, term, &void);
    node_dnf(alloc, table, sides, depth - 1, up, inside, node)
}

#[cycle(dnf)]
fn node_dnf(
    alloc: Global,
    table: &Table,
    sides: u32,
    depth: u32,
    up: bool,
    inside: bool,
    node: &Node,
) -> Result<Items<Conjunct<u32>>, TypeFault>
    ensures value { IfOk result (λ made. made ≡ conjuncts.node_dnf table.now sides (conjuncts.dnf table.now sides depth) up inside node.now) }
    ensures width { Exactly result (conjuncts.narrow_node table.now (conjuncts.dnf table.now sides depth) (conjuncts.narrow table.now sides depth) up inside node.now) }
{
    match node {
        Node::Null => Ok(atom_or_out(alloc, inside, Atom::Null)?),
        Node::Bool => Ok(atom_or_out(alloc, inside, Atom::Bool)?),
        Node::Int => Ok(atom_or_out(alloc, inside, Atom::Int)?),
        Node::Any => Ok(all_or_nothing(alloc, inside)?),
        Node::Void => Ok(nothing_or_all(alloc, inside)?),
        Node::Record(fields) => {
            let parts = parts_of(alloc, table, sides, up, fields.as_slice())?;
            Ok(atom_or_out(alloc, inside, Atom::Record(parts))?)
        }
        Node::Array(item) => {
            let part = part_of(alloc, table, sides, up, *item)?;
            Ok(atom_or_out(alloc, inside, Atom::Array(part))?)
        }
        Node::Union(a, b) => {
            let xs = dnf(alloc, table, sides, depth, up, inside, *a)?;
            let ys = dnf(alloc, table, sides, depth, up, inside, *b)?;
            either(alloc, inside, xs, ys)
        }
        Node::Inter(a, b) => {
            let xs = dnf(alloc, table, sides, depth, up, inside, *a)?;
            let ys = dnf(alloc, table, sides, depth, up, inside, *b)?;
            either(alloc, !inside, xs, ys)
        }
        Node::Not(a) => dnf(alloc, table, sides, depth, !up, !inside, *a),
        Node::Named(number) => match definition_of(table, *number) {
            None => Ok(nothing_or_all(alloc, inside)?),
            Some(definition) => {
                if up || !definition.constrained {
                    return dnf(alloc, table, sides, depth, up, inside, definition.term);
                }
                Ok(nothing_or_all(alloc, inside)?)
            }
        },
        Node::Normal(conjuncts) => normal_or_out(alloc, inside, conjuncts.as_slice()),
    }
}

/// The conjuncts of a part: those of its terms, merged from the left.
pub fn dnf_part(
    alloc: Global,
    table: &Table,
    depth: u32,
    part: &[Signed<u32>],
) -> Result<Items<Conjunct<u32>>, TypeFault>
    ensures value { IfOk result (λ made. made ≡ conjuncts.dnf_part table.now depth part.now) }
    ensures width { Exactly result (conjuncts.narrow_part table.now depth part.now) }
{
    match part {
        [] => Ok(nothing_or_all(alloc, false)?),
        [first, others @ ..] => {
            let mut made = dnf(
                alloc,
                table,
                depth,
                depth,
                first.up,
                first.inside,
                first.term,
            )?;
            for signed in others {
                let next = dnf(
                    alloc,
                    table,
                    depth,
                    depth,
                    signed.up,
                    signed.inside,
                    signed.term,
                )?;
                made = merge(alloc, made.as_slice(), next.as_slice())?;
            }
            Ok(made)
        }
    }
}
