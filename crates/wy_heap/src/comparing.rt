//! Equality of what two places stand for.
//!
//! The comparison walks a list of pairs of nodes with a place in each, so it takes as much memory as the
//! nodes nest, and no stack.
ghost use Rattle.std.specs.Prelude.{◌≡◌, ◌+◌, ◌*◌, ◌∷◌, [], IfOk};
ghost use Rattle.wy_value.specs.Shapes.{IsShapes};
ghost use Rattle.wy_heap.specs.declared.part.Part.TheVariants.{Key};
ghost use Rattle.wy_heap.specs.Nodes.{map_of};
ghost use Rattle.wy_heap.specs.Meaning.{IsMeant};
ghost use Rattle.wy_heap.specs.Standing.{AreHeld};
ghost use Rattle.wy_heap.specs.Weighing.{weight};
ghost use Rattle.wy_heap.specs.Comparing.{Same, Tells, IsPair, SameFrom, pair_work, Compares};

use crate::heap::Heap;
use crate::part::{Part, Place};
use std::alloc::AllocError;
use wy_items::NoMemory;

impl Heap {
    /// Whether both places stand for the same value. Two holds on one node are equal at once; else it
    /// takes time linear in the smaller of the two trees, and memory linear in how deep they nest.
    pub fn equal(&self, p: &Place, q: &Place) -> Result<bool, NoMemory>
        requires held { AreHeld self.now (p.now ∷ q.now ∷ []) }
        ensures value { IfOk result (Tells (map_of self.now) p.now q.now) }
    {
        match self.compared(p.part(), q.part()) {
            Ok(same) => Ok(same),
            Err(_) => Err(NoMemory),
        }
    }

    // whether both parts stand for the same datum
    fn compared(&self, a: Part, b: Part) -> Result<bool, AllocError>
        requires table { IsShapes self.now.shapes }
        requires left { IsMeant (map_of self.now) a }
        requires right { IsMeant (map_of self.now) b }
        ensures { IfOk result (Tells (map_of self.now) a b) }
    {
        let mut todo: Vec<(usize, usize, usize)> = Vec::new(self.alloc);
        if !self.alike(a, b, &mut todo)? {
            return Ok(false);
        }
        'pairs: while let Some((left, right, place)) = todo.pop() {
            if !self.next_alike(left, right, place, &mut todo)? {
                return Ok(false);
            }
        }
        Ok(true)
    }

    // looks at the parts of two nodes at a place, and leaves those behind it
    fn next_alike(
        &self,
        left: usize,
        right: usize,
        place: usize,
        todo: &mut Vec<(usize, usize, usize)>,
    ) -> Result<bool, AllocError>
        requires table { IsShapes self.now.shapes }
        requires pair { IsPair (map_of self.now) (left, right, place) }
        ensures { IfOk result (Compares (map_of self.now) (SameFrom (map_of self.now) (left, right, place)) (pair_work (map_of self.now) (left, right, place)) todo.old.items todo.new.items) }
    {
        if place >= self.nodes[left].parts.len() {
            return Ok(true);
        }
        todo.push((left, right, place + 1))?;
        let first = self.part_in(left, place);
        let second = self.part_in(right, place);
        let alike = self.alike(first, second, todo)?;
        Ok(alike)
    }

    // looks at two parts, and leaves the parts of their nodes
    fn alike(
        &self,
        a: Part,
        b: Part,
        todo: &mut Vec<(usize, usize, usize)>,
    ) -> Result<bool, AllocError>
        requires table { IsShapes self.now.shapes }
        requires left { IsMeant (map_of self.now) a }
        requires right { IsMeant (map_of self.now) b }
        ensures { IfOk result (Compares (map_of self.now) (Same (map_of self.now) a b) (2 * weight (map_of self.now) a) todo.old.items todo.new.items) }
    {
        if a == b {
            return Ok(true);
        }
        match (a, b) {
            (Part::Key(j), Part::Key(k)) => self.alike_nodes(j, k, todo),
            _ => Ok(false),
        }
    }

    // looks at two nodes, and leaves their parts
    fn alike_nodes(
        &self,
        j: usize,
        k: usize,
        todo: &mut Vec<(usize, usize, usize)>,
    ) -> Result<bool, AllocError>
        requires table { IsShapes self.now.shapes }
        requires left { IsMeant (map_of self.now) (Key j) }
        requires right { IsMeant (map_of self.now) (Key k) }
        ensures { IfOk result (Compares (map_of self.now) (Same (map_of self.now) (Key j) (Key k)) (2 * weight (map_of self.now) (Key j)) todo.old.items todo.new.items) }
    {
        let left = &self.nodes[j];
        let right = &self.nodes[k];
        if left.shape != right.shape {
            return Ok(false);
        }
        if left.parts.len() != right.parts.len() {
            return Ok(false);
        }
        todo.push((j, k, 0))?;
        Ok(true)
    }
}
