//! Slots: where they lie in a node, and what is in them.
ghost use Rattle.std.specs.Prelude.{◌≡◌, ◌≤◌, ◌<◌, ◌∷◌, [], ◌++◌, ℕ, List, Ok, IfOk, OnErr, Some, length, slice_get};
ghost use Rattle.wy_value.specs.Datum.{Datum, Data};
ghost use Rattle.wy_value.specs.Shapes.{IsShapes};
ghost use Rattle.wy_value.specs.Values.{length_of};
ghost use Rattle.wy_heap.specs.declared.part.Part.{Part};
ghost use Rattle.wy_heap.specs.declared.part.Part.TheVariants.{Key};
ghost use Rattle.wy_heap.specs.Nodes.{Form, map_of, at, form_in};
ghost use Rattle.wy_heap.specs.Meaning.{Means, IsNode};
ghost use Rattle.wy_heap.specs.Standing.{Stands, AreHeld, Acts, SameTable, IsAsBefore};
ghost use Rattle.wy_heap.specs.Parts.{IsBelow};
ghost use Rattle.wy_heap.specs.Slots.{step_of, child, IsSlot, place_in, part_of, part_at};
ghost use Rattle.wy_heap.specs.Changing.{SameRest, IsNodeSlot, Swaps, More};
ghost use Rattle.wy_heap.specs.Copying.{CopiesAsMany};
ghost use Rattle.wy_heap.specs.Numbering.{number_position};

use crate::heap::Heap;
use crate::node::Shape;
use crate::part::{Part, Place, Slot};
use wy_items::NoMemory;

impl Heap {
    /// A second hold on what is in a slot. It takes no memory where that is no node, or one with fewer
    /// holders than the cap. At the cap the new place holds a copy, as at `share`. Below the cap its cost is
    /// constant, and for a field linear in the fields of the record.
    pub fn get(&mut self, p: &Place, s: Slot) -> Result<Place, NoMemory>
        requires held { AreHeld self.old (p.now ∷ []) }
        requires there { IsSlot self.old p.now s }
        ensures acts { IfOk result (λ made. (others : List Part) → Stands self.old (p.now ∷ others) → Acts self.old self.new (made ∷ []) (p.now ∷ others)) }
        ensures value { IfOk result (λ made. (d : Datum) → Means (map_of self.old) d p.now → Means (map_of self.new) (child d (step_of self.old.shapes s)) made) }
        ensures below { let part = part_at (map_of self.old) p.now (step_of self.old.shapes s) in IsBelow self.old self.old.cap part → (result ≡ Ok part) × (map_of self.new ≡ map_of self.old) × (self.new.copies ≡ self.old.copies) }
        ensures stays { IfOk result (λ made. More (map_of self.old) (map_of self.new)) }
        ensures copies { IfOk result (λ made. CopiesAsMany self.old self.new) }
        ensures no_memory { OnErr result (IsAsBefore self.old self.new) }
        ensures kept { SameTable self.old self.new }
    {
        let child = self.child(p.part(), s);
        let part = self.again(child)?;
        Ok(Place::of(part))
    }

    /// How many items an array has, in constant time. It takes no memory.
    pub fn len(&self, p: &Place) -> u64
        requires held { AreHeld self.now (p.now ∷ []) }
        requires array { (items : Data) × Means (map_of self.now) (Datum.Array items) p.now }
        ensures value { (items : Data) → Means (map_of self.now) (Datum.Array items) p.now → result ≡ length_of items }
    {
        match p.part() {
            Part::Key(key) => self.nodes[key].parts.len() as u64,
            _ => unreachable!(),
        }
    }

    // the part in a slot
    pub(crate) fn child(&self, whole: Part, slot: Slot) -> Part
        requires table { IsShapes self.now.shapes }
        requires there { IsSlot self.now whole slot }
        ensures { result ≡ part_at (map_of self.now) whole (step_of self.now.shapes slot) }
    {
        match whole {
            Part::Key(key) => {
                let place = self.position(key, slot);
                self.part_in(key, place)
            }
            _ => unreachable!(),
        }
    }

    // the part of a node with this index
    pub(crate) fn part_in(&self, key: usize, place: usize) -> Part
        requires { IsNodeSlot (map_of self.now) key place }
        ensures { result ≡ part_of (at (map_of self.now) key) place }
    {
        self.nodes[key].parts[place]
    }

    // where a slot lies in a node
    pub(crate) fn position(&self, key: usize, slot: Slot) -> usize
        requires table { IsShapes self.now.shapes }
        requires there { IsSlot self.now (Key key) slot }
        ensures { result ≡ place_in (form_in (at (map_of self.now) key)) (step_of self.now.shapes slot) }
    {
        match (self.nodes[key].shape, slot) {
            (Shape::Array, Slot::Item(index)) => index as usize,
            (Shape::Record(shape), Slot::Field(field)) => {
                number_place(self.fields_of(shape), field)
            }
            _ => unreachable!(),
        }
    }

    // the numbers of the names of a shape's fields
    pub(crate) fn fields_of(&self, shape: u32) -> &[u32]
        requires { shape < length self.now.shapes.lists }
        ensures { slice_get self.now.shapes.lists shape ≡ Some result.now }
    {
        self.shapes.lists.as_slice()[shape as usize].as_slice()
    }

    // puts a part into a slot, in place of what was there
    pub(crate) fn lay(&mut self, key: usize, place: usize, part: Part)
        requires { IsNodeSlot (map_of self.old) key place }
        ensures swaps { Swaps self.old self.new key place part }
        ensures rest { SameRest self.old self.new }
    {
        let node = &mut self.nodes[key];
        node.parts[place] = part;
    }

    // puts a part into a slot, and takes out what was there
    pub(crate) fn swap(&mut self, key: usize, place: usize, part: Part) -> Part
        requires { IsNodeSlot (map_of self.old) key place }
        ensures out { result ≡ part_of (at (map_of self.old) key) place }
        ensures swaps { Swaps self.old self.new key place part }
        ensures rest { SameRest self.old self.new }
    {
        let node = &mut self.nodes[key];
        let old = node.parts[place];
        node.parts[place] = part;
        old
    }
}

// where the number stands in the list, and its length where it isn't there
pub(crate) fn number_place(list: &[u32], number: u32) -> usize
    ensures { result ≡ number_position number list.now }
{
    for (i, other) in list.iter().enumerate() {
        if *other == number {
            return i;
        }
    }
    list.len()
}
