//! The cap: copies come in place of nodes with more holders than it allows.
//!
//! A new node's parts may have a holder too many. Then each of them gets a copy of its own, whose parts
//! are looked at in turn, along a list of new nodes. At each moment every place stands for what it stood
//! for, so where memory ends the new node is let go of, and all is as before.
ghost use Rattle.std.specs.Prelude.{◌≡◌, ◌≤◌, ◌<◌, ◌+◌, ◌∷◌, [], ◌++◌, ℕ, List, None, IsSome, IfOk, OnOk, OnErr};
ghost use Rattle.wy_heap.specs.declared.part.Part.{Part};
ghost use Rattle.wy_heap.specs.declared.part.Part.TheVariants.{Key};
ghost use Rattle.wy_heap.specs.Nodes.{Map, map_of, at, count_at, slot_holds};
ghost use Rattle.wy_heap.specs.Standing.{Counts, IsWithin, SameTable};
ghost use Rattle.wy_heap.specs.Slots.{part_of};
ghost use Rattle.wy_heap.specs.Changing.{IsNodeSlot, SameNodes, More};
ghost use Rattle.wy_heap.specs.Copying.{CopiesAsMany};
ghost use Rattle.wy_heap.specs.Settling.{Settles, Splits, SettlesPlace, AreTodo, Spares, SettlesNode};

use crate::heap::Heap;
use crate::part::Part;
use std::alloc::AllocError;

impl Heap {
    // copies what the parts of a new node hold too often, and so on from the copies
    pub(crate) fn settle(&mut self, first: usize) -> Result<(), AllocError>
        requires held { (places : List Part) × Counts self.old places }
        requires some { 1 ≤ self.old.cap }
        requires there { IsSome (at (map_of self.old) first) }
        requires over { (k : ℕ) → count_at self.old k ≤ self.old.cap + slot_holds k (at (map_of self.old) first) }
        ensures settles { Settles self.old self.new }
        ensures spares { (base : Map) → More base (map_of self.old) → at base first ≡ None → More base (map_of self.new) }
        ensures within { OnOk result (IsWithin self.new) }
        ensures copies { OnOk result (CopiesAsMany self.old self.new) }
        ensures kept { SameTable self.old self.new }
    {
        let mut todo: Vec<usize> = Vec::new(self.alloc);
        self.settle_node(first, &mut todo)?;
        'nodes: while let Some(node) = todo.pop() {
            self.settle_node(node, &mut todo)?;
        }
        Ok(())
    }

    // copies what the parts of a node hold too often, and leaves the copies
    fn settle_node(&mut self, node: usize, todo: &mut Vec<usize>) -> Result<(), AllocError>
        requires held { (places : List Part) × Counts self.old places }
        requires some { 1 ≤ self.old.cap }
        requires there { IsSome (at (map_of self.old) node) }
        requires todo { AreTodo (map_of self.old) node todo.old.items }
        ensures settles { Settles self.old self.new }
        ensures spares { Spares self.old self.new node todo.old.items }
        ensures node { OnOk result (SettlesNode self.old.cap self.old self.new node todo.old.items todo.new.items) }
        ensures kept { SameTable self.old self.new }
    {
        let many = self.nodes[node].parts.len();
        for place in 0..many {
            self.settle_place(node, place, todo)?;
        }
        Ok(())
    }

    // where the part in a slot has more holders than the cap allows, a copy comes into the slot
    fn settle_place(
        &mut self,
        node: usize,
        place: usize,
        todo: &mut Vec<usize>,
    ) -> Result<(), AllocError>
        requires held { (places : List Part) × Counts self.old places }
        requires some { 1 ≤ self.old.cap }
        requires there { IsNodeSlot (map_of self.old) node place }
        ensures settles { Settles self.old self.new }
        ensures spares { (base : Map) → More base (map_of self.old) → at base node ≡ None → More base (map_of self.new) }
        ensures place { OnOk result (SettlesPlace self.old.cap self.old self.new node place todo.old.items todo.new.items) }
        ensures kept { SameTable self.old self.new }
    {
        let Part::Key(key) = self.part_in(node, place) else {
            return Ok(());
        };
        if self.nodes[key].count <= u64::from(self.cap) {
            return Ok(());
        }
        let copy = self.split(node, place, key)?;
        todo.push(copy)?;
        Ok(())
    }

    // a copy of the node that a slot holds comes into the slot
    fn split(&mut self, node: usize, place: usize, key: usize) -> Result<usize, AllocError>
        requires held { (places : List Part) × Counts self.old places }
        requires there { IsNodeSlot (map_of self.old) node place }
        requires part { part_of (at (map_of self.old) node) place ≡ Key key }
        requires some { 1 ≤ self.old.cap }
        requires many { self.old.cap < count_at self.old key }
        ensures splits { IfOk result (λ copy. Splits self.old self.new node place key copy) }
        ensures no_memory { OnErr result (SameNodes self.old self.new) }
        ensures kept { SameTable self.old self.new }
    {
        let shape = self.nodes[key].shape;
        let words = self.words_at(key)?;
        if !self.can_hold_all(&words, u64::MAX) {
            return Err(AllocError);
        }
        let copy = self.join(shape, words)?;
        let out = self.swap(node, place, Part::Key(copy));
        let _none = self.let_go(out, None);
        self.copies = self.copies.saturating_add(1);
        Ok(copy)
    }
}
