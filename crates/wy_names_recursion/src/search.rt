//! A search for the order of properties, on which no answer rests.
use crate::arrows::arrow_of;
use crate::edges::{Edge, Way};
use std::alloc::{AllocError, Global};
use wy_ast::Decl;
use wy_graph::cycles::{Adjacency, Arrow, adjacency_of, walk};
use wy_items::Items;

/// An order of properties, the position of each declaration in it, which is one more than its place and 0
/// where it has none, and for each property without one a use of another one without one.
#[derive(Drop)]
pub struct Candidate {
    pub order: Items<usize>,
    pub positions: Items<usize>,
    pub witnesses: Items<usize>,
}

/// The order in which a walk in depth along the uses leaves the properties, without those that use one
/// which isn't in the order before them. Linear in declarations and uses.
pub fn proposed(alloc: Global, decls: &[Decl], edges: &[Edge]) -> Result<Candidate, AllocError> {
    let count = decls.len();
    let arrows = use_arrows(alloc, edges)?;
    let arrows = arrows.as_slice();
    let along = adjacency_of(alloc, count, arrows, false)?;
    let nodes = numbers(alloc, count)?;
    let forest = walk(alloc, count, arrows, false, &along, nodes.as_slice())?;
    let mut made = Candidate {
        order: Items::new(alloc),
        positions: zeros(alloc, count)?,
        witnesses: zeros(alloc, count)?,
    };
    for node in forest.order.as_slice() {
        place(&mut made, decls, arrows, &along, *node)?;
    }
    for (i, edge) in edges.iter().enumerate() {
        witness(&mut made, *edge, i);
    }
    Ok(made)
}

/// The arrows of the uses of properties.
fn use_arrows(alloc: Global, edges: &[Edge]) -> Result<Items<Arrow>, AllocError> {
    let mut arrows = Items::new(alloc);
    for edge in edges {
        if edge.way == Way::Use {
            arrows.push(arrow_of(*edge))?;
        }
    }
    Ok(arrows)
}

fn numbers(alloc: Global, count: usize) -> Result<Items<usize>, AllocError> {
    let mut all = Items::new(alloc);
    for node in 0..count {
        all.push(node)?;
    }
    Ok(all)
}

fn zeros(alloc: Global, count: usize) -> Result<Items<usize>, AllocError> {
    let mut all = Items::new(alloc);
    for _turn in 0..count {
        all.push(0usize)?;
    }
    Ok(all)
}

fn number_at(list: &Items<usize>, index: usize) -> usize {
    match list.get(index) {
        None => 0,
        Some(number) => *number,
    }
}

fn set(list: &mut Items<usize>, index: usize, value: usize) {
    if index < list.len() {
        list.set(index, value);
    }
}

/// Puts the property behind the others, where all that it uses stands there.
fn place(
    made: &mut Candidate,
    decls: &[Decl],
    arrows: &[Arrow],
    along: &Adjacency,
    node: usize,
) -> Result<(), AllocError> {
    let is_property = match decls.get(node) {
        Some(Decl::Property(_)) => true,
        _ => false,
    };
    let first = number_at(&along.starts, node);
    let last = number_at(&along.starts, node.saturating_add(1));
    let mut is_ready = is_property;
    for i in first..last {
        match arrows.get(number_at(&along.places, i)) {
            None => {}
            Some(arrow) => {
                if number_at(&made.positions, arrow.to as usize) == 0 {
                    is_ready = false;
                }
            }
        }
    }
    if is_ready {
        made.order.push(node)?;
        let position = made.order.len();
        set(&mut made.positions, node, position);
    }
    Ok(())
}

/// Keeps a use whose ends both have no position.
fn witness(made: &mut Candidate, edge: Edge, index: usize) {
    let (from, to) = (edge.from as usize, edge.to as usize);
    let is_open = number_at(&made.positions, from) == 0 && number_at(&made.positions, to) == 0;
    if edge.way == Way::Use && is_open {
        set(&mut made.witnesses, from, index);
    }
}
