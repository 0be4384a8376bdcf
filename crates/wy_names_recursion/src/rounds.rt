//! The order of properties by rounds.
ghost use Rattle.std.specs.Prelude.{◌≡◌, map, IfOk};
ghost use Rattle.wy_ast.specs.SurfaceSeen.{seen_decl};
ghost use Rattle.wy_names_recursion.specs.Endings.{IsOrder};
ghost use Rattle.wy_names_recursion.specs.Rounds as spec;

use crate::edges::Edge;
use crate::positions::{is_property, is_use};
use std::alloc::{AllocError, Global};
use wy_ast::Decl;
use wy_items::Items;

fn has(list: &[usize], index: usize) -> bool
    ensures value { result ≡ spec.has list.now index }
{
    for other in list {
        if *other == index {
            return true;
        }
    }
    false
}

/// Whether it is a use by this property of one that doesn't stand in the order.
fn blocks(decls: &[Decl], order: &[usize], index: usize, edge: Edge) -> bool
    ensures value { result ≡ spec.blocks (map seen_decl decls.now) order.now index edge }
{
    is_use(decls, edge) && (edge.from as usize == index && !has(order, edge.to as usize))
}

/// Whether all that the property uses stands in the order.
fn is_ready(decls: &[Decl], order: &[usize], index: usize, edges: &[Edge]) -> bool
    ensures value { result ≡ spec.is_ready (map seen_decl decls.now) order.now index edges.now }
{
    for edge in edges {
        if blocks(decls, order, index, *edge) {
            return false;
        }
    }
    true
}

/// An order, and the properties that don't stand in it.
#[derive(Drop)]
struct Round {
    order: Items<usize>,
    left: Items<usize>,
}

/// The order with those of the rest that are ready in their turn.
fn taken(
    alloc: Global,
    decls: &[Decl],
    edges: &[Edge],
    order: Items<usize>,
    rest: &[usize],
) -> Result<Round, AllocError>
    ensures order { IfOk result (λ r. r.order ≡ spec.order_behind (map seen_decl decls.now) edges.now order rest.now) }
    ensures left { IfOk result (λ r. r.left ≡ spec.rest_behind (map seen_decl decls.now) edges.now order rest.now) }
{
    let mut order = order;
    let mut left = Items::new(alloc);
    for index in rest {
        if is_ready(decls, order.as_slice(), *index, edges) {
            order.push(*index)?;
        } else {
            left.push(*index)?;
        }
    }
    Ok(Round { order, left })
}

/// The indices of all properties.
fn properties(alloc: Global, decls: &[Decl]) -> Result<Items<usize>, AllocError>
    ensures value { IfOk result (λ all. all ≡ spec.properties 0 (map seen_decl decls.now)) }
{
    let mut all = Items::new(alloc);
    for (index, decl) in decls.iter().enumerate() {
        if is_property(Some(decl)) {
            all.push(index)?;
        }
    }
    Ok(all)
}

/// The indices of exactly the properties whose expansion ends, each behind those that it uses. Rounds are
/// made until one takes no more, so it may be quadratic in the properties.
pub fn by_rounds(alloc: Global, decls: &[Decl], edges: &[Edge]) -> Result<Items<usize>, AllocError>
    ensures value { IfOk result (λ order. IsOrder (map seen_decl decls.now) edges.now order) }
{
    let mut order = Items::new(alloc);
    let mut rest = properties(alloc, decls)?;
    let mut is_done = false;
    while !is_done {
        let before = rest.len();
        let next = taken(alloc, decls, edges, order, rest.as_slice())?;
        let Round { order: more, left } = next;
        order = more;
        rest = left;
        is_done = rest.len() == before;
    }
    Ok(order)
}
