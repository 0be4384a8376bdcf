//! The terms of types, each with a number. Equal terms have one.
ghost use Rattle.std.specs.Prelude.{◌≡◌, ◌<◌, ◌↔◌, [], length, slice_get, take, IsTrue, IfOk, OnOk, OnErr};
ghost use Rattle.std.specs.Option.{option_copied};
ghost use Rattle.wy_types.specs.Nodes.{with_node, place_of};

use crate::table::Node;
use indexmap::IndexSet;
use std::alloc::{AllocError, Global};
use std::marker::Model;

/// Nodes by number, each of them once. A contract sees their list.
#[derive(Drop)]
pub struct Numbering {
    nodes: IndexSet<Node>,
}

impl Model for Numbering {
    ghost use Rattle.std.specs.Prelude.{List, length, ◌<◌};
    ghost use Rattle.wy_types.specs.declared.table.Node.{Node};

    ghost Value = { List Node };

    ghost view = { λ s. s.nodes.keys };

    ghost invariant = { λ s. length s.nodes.keys < 4294967295 };
}

impl Numbering {
    /// No nodes. It takes no memory.
    pub fn new(alloc: Global) -> Numbering
        ensures value { result ≡ [] }
    {
        Numbering {
            nodes: IndexSet::new(alloc),
        }
    }

    /// The number of the node, which is put last where it isn't there, in amortized constant time
    /// beside that of hashing it. Want of memory is also the answer at 2^32 - 2 nodes.
    #[tactic(auto, unfolding(crate::specs::Nodes::place_of))]
    pub fn put(&mut self, node: Node) -> Result<u32, AllocError>
        ensures nodes { OnOk result (self.new ≡ with_node self.old node) }
        ensures number { IfOk result (λ number. number ≡ place_of self.old node) }
        ensures no_memory { OnErr result (self.new ≡ self.old) }
    {
        if self.nodes.len() >= 4294967294 {
            return Err(AllocError);
        }
        let (number, _) = self.nodes.insert_full(node)?;
        Ok(number as u32)
    }

    /// The node with this number, in constant time.
    pub fn get(&self, number: u32) -> Option<&Node>
        ensures value { option_copied result ≡ slice_get self.now number }
    {
        self.nodes.get_index(number as usize)
    }

    /// Keeps the first so many nodes alone, in time linear in the others.
    pub fn truncate(&mut self, count: usize)
        ensures nodes { self.new ≡ take count self.old }
    {
        self.nodes.truncate(count);
    }

    /// How many nodes there are, at most 2^32 - 2.
    pub fn len(&self) -> usize
        ensures value { result ≡ length self.now }
        ensures within { length self.now < 4294967295 }
    {
        self.nodes.len()
    }

    /// Whether there are none.
    pub fn is_empty(&self) -> bool
        ensures value { IsTrue result ↔ (length self.now ≡ 0) }
    {
        self.len() == 0
    }
}
