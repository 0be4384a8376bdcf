//! Labels by what they mean: how many nodes lead to each node.
ghost use Rattle.std.specs.Prelude.{◌≡◌, ◌+◌, ◌<◌, ◌≤◌, ◌∷◌, ℕ, [], map, IfOk};
ghost use Rattle.wy_graph.specs.cycles.Ancestors as spec;
ghost use Rattle.wy_graph.specs.cycles.Cycles as cycles;

use crate::closure::{Clause, close};
use crate::cycles::graph::Arrow;
use std::alloc::{AllocError, Global};
use wy_items::Items;

/// The greatest node at which an arrow begins or ends, or 0.
fn last_node(arrows: &[Arrow]) -> u32
    ensures value { result ≡ spec.last_node arrows.now 0 }
{
    let mut last = 0;
    for arrow in arrows {
        last = greater(greater(last, arrow.from), arrow.to);
    }
    last
}

fn greater(a: u32, b: u32) -> u32
    ensures value { result ≡ spec.greater a b }
{
    if a < b { b } else { a }
}

/// Nodes up to this one, and all of the arrows' ends.
pub fn node_count(count: usize, arrows: &[Arrow]) -> usize {
    let ends = last_node(arrows) as usize + 1;
    if count < ends { ends } else { count }
}

/// The clause by which the arrow's beginning is in a set that has its end.
fn clause_of(alloc: Global, arrow: Arrow) -> Result<Clause, AllocError>
    ensures value { IfOk result (λ c. c ≡ spec.clause_of arrow) }
{
    let mut ends = Items::new(alloc);
    ends.push(arrow.to)?;
    let mut body = Items::new(alloc);
    body.push(ends)?;
    Ok(Clause {
        head: arrow.from,
        body,
    })
}

/// The clauses whose least closed set is that of the nodes that lead to this one.
fn clauses_to(alloc: Global, arrows: &[Arrow], node: u32) -> Result<Vec<Clause>, AllocError>
    ensures value { IfOk result (λ cs. cs.items ≡ spec.clauses_to arrows.now node) }
{
    let mut clauses = Vec::new(alloc);
    clauses.push(Clause {
        head: node,
        body: Items::new(alloc),
    })?;
    for arrow in arrows {
        let clause = clause_of(alloc, *arrow)?;
        clauses.push(clause)?;
    }
    Ok(clauses)
}

/// How many marks are set.
fn how_many(marks: &[bool]) -> usize
    ensures value { result ≡ spec.how_many marks.now }
{
    let mut count = 0;
    for mark in marks {
        if *mark {
            count += 1;
        }
    }
    count
}

/// How many of so many nodes lead to this one. Linear in nodes and arrows.
fn ancestors(alloc: Global, count: usize, arrows: &[Arrow], node: u32) -> Result<usize, AllocError>
    requires ends { spec.last_node arrows.now 0 < count }
    requires node { node < count }
    ensures value { IfOk result (λ n. spec.CountsAncestors arrows.now count node n) }
{
    let clauses = clauses_to(alloc, arrows, node)?;
    let marks = close(alloc, count, clauses.as_slice())?;
    Ok(how_many(marks.as_slice()))
}

/// For each end of an arrow, how many nodes lead to it. A walk over all nodes and arrows for each node.
pub fn labels_by_ancestors(alloc: Global, arrows: &[Arrow]) -> Result<Items<usize>, AllocError>
    ensures cycles { IfOk result (λ labels. cycles.TellCycles arrows.now labels) }
    ensures rising { IfOk result (λ labels. cycles.Rise arrows.now labels) }
{
    let last = last_node(arrows);
    let count = last as usize + 1;
    let mut labels = Items::new(alloc);
    for node in 0..last {
        let label = ancestors(alloc, count, arrows, node)?;
        labels.push(label)?;
    }
    let label = ancestors(alloc, count, arrows, last)?;
    labels.push(label)?;
    Ok(labels)
}
