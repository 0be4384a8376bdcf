//! The arrows of a graph, by the nodes at which they begin.

use std::alloc::{AllocError, Global};
use wy_items::Items;

/// An arrow from one node to another.
#[derive(Clone, Copy, Debug, PartialEq, Eq)]
pub struct Arrow {
    pub from: u32,
    pub to: u32,
}

/// The arrows by their indices, those that begin at node n from `starts[n]` up to `starts[n + 1]`.
#[derive(Drop)]
pub struct Adjacency {
    pub starts: Items<usize>,
    pub places: Items<usize>,
}

/// The end of an arrow at which a walk enters it, and the other one.
pub fn ends(arrow: Arrow, turned: bool) -> (u32, u32) {
    if turned {
        (arrow.to, arrow.from)
    } else {
        (arrow.from, arrow.to)
    }
}

/// So many times the same number.
pub fn filled(alloc: Global, count: usize, value: usize) -> Result<Items<usize>, AllocError> {
    let mut list = Items::new(alloc);
    for _turn in 0..count {
        list.push(value)?;
    }
    Ok(list)
}

/// The number at the index, or 0 where there is none.
pub fn at(list: &Items<usize>, index: usize) -> usize {
    match list.get(index) {
        None => 0,
        Some(value) => *value,
    }
}

/// Puts the number at the index, where there is one.
pub fn set(list: &mut Items<usize>, index: usize, value: usize) {
    if index < list.len() {
        list.set(index, value);
    }
}

/// The graph of these arrows, or of the same turned round. Linear in nodes and arrows.
pub fn adjacency_of(
    alloc: Global,
    count: usize,
    arrows: &[Arrow],
    turned: bool,
) -> Result<Adjacency, AllocError> {
    let starts = starts_of(alloc, count, arrows, turned)?;
    let mut next = filled(alloc, count, 0)?;
    for node in 0..count {
        set(&mut next, node, at(&starts, node));
    }
    let mut places = filled(alloc, arrows.len(), 0)?;
    for (i, arrow) in arrows.iter().enumerate() {
        let (from, _) = ends(*arrow, turned);
        let place = at(&next, from as usize);
        set(&mut places, place, i);
        set(&mut next, from as usize, place.saturating_add(1));
    }
    Ok(Adjacency { starts, places })
}

/// How many arrows begin at nodes before each node.
fn starts_of(
    alloc: Global,
    count: usize,
    arrows: &[Arrow],
    turned: bool,
) -> Result<Items<usize>, AllocError> {
    let mut degrees = filled(alloc, count, 0)?;
    for arrow in arrows {
        let (from, _) = ends(*arrow, turned);
        let degree = at(&degrees, from as usize);
        set(&mut degrees, from as usize, degree.saturating_add(1));
    }
    let mut starts = Items::new(alloc);
    let mut sum = 0usize;
    for node in 0..count {
        starts.push(sum)?;
        sum = sum.saturating_add(at(&degrees, node));
    }
    starts.push(sum)?;
    Ok(starts)
}
