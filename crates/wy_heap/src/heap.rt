//! A heap, and the questions that it answers without a change.
ghost use Rattle.std.specs.Prelude.{◌≡◌, ◌≤◌, ◌∷◌, []};
ghost use Rattle.wy_value.specs.Datum.{Datum};
ghost use Rattle.wy_value.specs.Shapes.{IsShapes};
ghost use Rattle.wy_heap.specs.Nodes.{map_of, size};
ghost use Rattle.wy_heap.specs.Meaning.{Means, IsMeant};
ghost use Rattle.wy_heap.specs.Standing.{Stands, AreHeld};
ghost use Rattle.wy_heap.specs.Parts.{IsKind};

use crate::node::{Node, Shape};
use crate::part::{Kind, Part, Place};
use slab::Slab;
use std::alloc::Global;
use wy_value::Shapes;

/// A heap of counted nodes. Each array and each record is a node, and its count is the number of
/// places and slots that hold it.
#[derive(Drop)]
pub struct Heap {
    pub(crate) nodes: Slab<Node>,
    pub(crate) shapes: Shapes,
    pub(crate) cap: u32,
    pub(crate) copies: u64,
    pub(crate) alloc: Global,
}

impl Heap {
    /// An empty heap with this table of shapes, in which no node ever has more holders than the cap.
    /// It takes no memory.
    pub fn new(alloc: Global, shapes: Shapes, count_cap: u32) -> Heap
        requires table { IsShapes shapes }
        requires some { 1 ≤ count_cap }
        ensures stands { Stands result [] }
        ensures value { (result.shapes ≡ shapes) × (result.cap ≡ count_cap) × (result.copies ≡ 0) }
    {
        Heap {
            nodes: Slab::new(alloc),
            shapes,
            cap: count_cap,
            copies: 0,
            alloc,
        }
    }

    /// What a place holds, in constant time. It takes no memory.
    pub fn kind(&self, p: &Place) -> Kind
        requires held { AreHeld self.now (p.now ∷ []) }
        ensures value { (d : Datum) → Means (map_of self.now) d p.now → IsKind self.now.shapes d result }
    {
        self.part_kind(p.part())
    }

    // what a part is
    pub(crate) fn part_kind(&self, part: Part) -> Kind
        requires meant { IsMeant (map_of self.now) part }
        ensures { (d : Datum) → Means (map_of self.now) d part → IsKind self.now.shapes d result }
    {
        match part {
            Part::Null => Kind::Null,
            Part::Bool(b) => Kind::Bool(b),
            Part::Int(n) => Kind::Int(n),
            Part::Key(key) => match self.nodes[key].shape {
                Shape::Array => Kind::Array,
                Shape::Record(shape) => Kind::Record(shape),
            },
        }
    }

    /// How many nodes there are, in constant time. It takes no memory.
    pub fn live(&self) -> u64
        ensures value { result ≡ size (map_of self.now) }
    {
        self.nodes.len() as u64
    }

    /// How many nodes were copied: those of a path that `set` copied, and those that `share`, `get`, `fill`
    /// and `set` copied at the cap. Each of these calls says in its clauses by how much it rose. At 2^64 - 1
    /// it rises no more. It takes constant time and no memory.
    pub fn copies(&self) -> u64
        ensures value { result ≡ self.now.copies }
    {
        self.copies
    }
}
