//! Labels of nodes, equal for those that lead to each other.
ghost use Rattle.std.specs.Prelude.{◌≡◌, IfOk};
ghost use Rattle.wy_graph.specs.cycles.Cycles as spec;

use crate::cycles::ancestors::{labels_by_ancestors, node_count};
use crate::cycles::certificate::{Certificate, Hangs, holds};
use crate::cycles::graph::{Arrow, adjacency_of};
use crate::cycles::walks::{Forest, walk};
use std::alloc::{AllocError, Global};
use wy_items::Items;

/// The label of each node.
#[derive(Drop)]
pub struct Labels {
    pub labels: Items<usize>,
}

/// Labels of the nodes, such that an arrow lies on a cycle exactly where its ends have one label; they rise
/// along each arrow. The nodes are those below the count, and all up to the greatest end of an arrow. Linear
/// in nodes and arrows where two walks in depth find labels that their certificate shows to be right, as in
/// all that was tested; else the nodes that lead to each node are counted, with a walk over all nodes and
/// arrows for each node.
#[tactic(auto, using(crate::proofs::cycles_lemmas::CycleLemmas::certified_cycles, crate::proofs::cycles_lemmas::CycleLemmas::certified_rise))]
pub fn components(alloc: Global, count: usize, arrows: &[Arrow]) -> Result<Labels, AllocError>
    ensures cycles { IfOk result (λ c. spec.TellCycles arrows.now c.labels) }
    ensures rising { IfOk result (λ c. spec.Rise arrows.now c.labels) }
{
    let nodes = node_count(count, arrows);
    let certificate = certified(alloc, nodes, arrows)?;
    if holds(arrows, &certificate, nodes) {
        let Certificate { labels, .. } = certificate;
        return Ok(Labels { labels });
    }
    let labels = labels_by_ancestors(alloc, arrows)?;
    Ok(Labels { labels })
}

/// Labels with a certificate: a walk in depth along the arrows, and one against them from the nodes that
/// were left last.
fn certified(alloc: Global, count: usize, arrows: &[Arrow]) -> Result<Certificate, AllocError> {
    let along = adjacency_of(alloc, count, arrows, false)?;
    let all = numbers(alloc, count)?;
    let first = walk(alloc, count, arrows, false, &along, all.as_slice())?;
    let against = adjacency_of(alloc, count, arrows, true)?;
    let last_first = reversed(alloc, first.order.as_slice())?;
    let second = walk(alloc, count, arrows, true, &against, last_first.as_slice())?;
    Ok(certificate(first, second))
}

fn certificate(first: Forest, second: Forest) -> Certificate {
    let Forest {
        by: down,
        times: down_ranks,
        ..
    } = first;
    let Forest {
        roots,
        trees,
        by: up,
        times: up_ranks,
        ..
    } = second;
    Certificate {
        labels: trees,
        roots,
        up: Hangs {
            arrows: up,
            ranks: up_ranks,
        },
        down: Hangs {
            arrows: down,
            ranks: down_ranks,
        },
    }
}

/// The numbers below the count.
fn numbers(alloc: Global, count: usize) -> Result<Items<usize>, AllocError> {
    let mut all = Items::new(alloc);
    for node in 0..count {
        all.push(node)?;
    }
    Ok(all)
}

/// The list from its end.
fn reversed(alloc: Global, list: &[usize]) -> Result<Items<usize>, AllocError> {
    let mut all = Items::new(alloc);
    for number in list.iter().rev() {
        all.push(*number)?;
    }
    Ok(all)
}
