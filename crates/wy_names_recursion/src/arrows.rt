//! The arrows that uses make among declarations.
ghost use Rattle.std.specs.Prelude.{◌≡◌, IfOk};
ghost use Rattle.wy_names_recursion.specs.Arrows as spec;

use crate::edges::{Edge, Way};
use std::alloc::{AllocError, Global};
use wy_graph::cycles::Arrow;
use wy_items::Items;

/// Whether a use of this kind counts: each does, or all but those inside of records and arrays.
fn counts(all: bool, way: Way) -> bool
    ensures value { result ≡ spec.counts all way }
{
    match way {
        Way::Bare => true,
        Way::Guarded => all,
        Way::Mention => true,
        Way::Use => true,
    }
}

/// The arrow of a use.
pub fn arrow_of(edge: Edge) -> Arrow
    ensures value { result ≡ spec.arrow_of edge }
{
    Arrow {
        from: edge.from,
        to: edge.to,
    }
}

/// The arrows of the uses that count, in order. Linear.
pub fn arrows_of(alloc: Global, all: bool, edges: &[Edge]) -> Result<Items<Arrow>, AllocError>
    ensures value { IfOk result (λ arrows. arrows ≡ spec.arrows_of all edges.now) }
{
    let mut arrows = Items::new(alloc);
    for edge in edges {
        if counts(all, edge.way) {
            arrows.push(arrow_of(*edge))?;
        }
    }
    Ok(arrows)
}
