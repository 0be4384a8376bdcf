//! A walk in depth over a graph.
use crate::cycles::graph::{Adjacency, Arrow, at, ends, filled, set};
use std::alloc::{AllocError, Global};
use wy_items::Items;

/// What a walk found: the nodes in the order in which they were left, the nodes at which it began anew, and
/// for each node the number of its tree, the arrow by which it was reached, and when.
#[derive(Drop)]
pub struct Forest {
    pub order: Items<usize>,
    pub roots: Items<usize>,
    pub trees: Items<usize>,
    pub by: Items<usize>,
    pub times: Items<usize>,
}

/// What a walk knows: what it found, the next arrow of each node, the nodes that were reached and the nodes
/// on the way.
#[derive(Drop)]
struct State {
    found: Forest,
    next: Items<usize>,
    reached: Items<usize>,
    way: Items<usize>,
    time: usize,
}

/// The walk from these nodes in turn. Linear in nodes and arrows.
pub fn walk(
    alloc: Global,
    count: usize,
    arrows: &[Arrow],
    turned: bool,
    graph: &Adjacency,
    from: &[usize],
) -> Result<Forest, AllocError> {
    let mut state = start(alloc, count, graph)?;
    let steps = count.saturating_mul(2).saturating_add(arrows.len());
    for root in from {
        if at(&state.reached, *root) == 0 {
            state.found.roots.push(*root)?;
            reach(&mut state, *root, 0)?;
            for _step in 0..steps {
                if state.way.is_empty() {
                    break;
                }
                step(arrows, turned, graph, &mut state)?;
            }
        }
    }
    let State { found, .. } = state;
    Ok(found)
}

fn start(alloc: Global, count: usize, graph: &Adjacency) -> Result<State, AllocError> {
    let mut next = filled(alloc, count, 0)?;
    for node in 0..count {
        set(&mut next, node, at(&graph.starts, node));
    }
    Ok(State {
        found: Forest {
            order: Items::new(alloc),
            roots: Items::new(alloc),
            trees: filled(alloc, count, 0)?,
            by: filled(alloc, count, 0)?,
            times: filled(alloc, count, 0)?,
        },
        next,
        reached: filled(alloc, count, 0)?,
        way: Items::new(alloc),
        time: 0,
    })
}

/// Goes to a node, by the arrow with this index, where it wasn't reached before.
fn reach(state: &mut State, node: usize, arrow: usize) -> Result<(), AllocError> {
    if at(&state.reached, node) != 0 {
        return Ok(());
    }
    set(&mut state.reached, node, 1);
    let tree = state.found.roots.len().saturating_sub(1);
    set(&mut state.found.trees, node, tree);
    set(&mut state.found.by, node, arrow);
    set(&mut state.found.times, node, state.time);
    state.time = state.time.saturating_add(1);
    state.way.push(node)
}

/// Goes along the next arrow of the last node on the way, or leaves that node.
fn step(
    arrows: &[Arrow],
    turned: bool,
    graph: &Adjacency,
    state: &mut State,
) -> Result<(), AllocError> {
    match state.way.pop() {
        None => Ok(()),
        Some(node) => {
            let place = at(&state.next, node);
            if place >= at(&graph.starts, node.saturating_add(1)) {
                return state.found.order.push(node);
            }
            set(&mut state.next, node, place.saturating_add(1));
            state.way.push(node)?;
            let index = at(&graph.places, place);
            match arrows.get(index) {
                None => Ok(()),
                Some(arrow) => {
                    let (_, to) = ends(*arrow, turned);
                    reach(state, to as usize, index)
                }
            }
        }
    }
}
