//! Whether slots are there, and what is in them.
ghost use Rattle.std.specs.Prelude.{◌≡◌, ◌≤◌, ◌<◌, ◌∷◌, [], IsTrue, false, length, ℕ, List, Some, slice_get, slice_index_or};
ghost use Rattle.wy_heap.specs.Nodes.{map_of};
ghost use Rattle.wy_value.specs.Datum.{Datum};
ghost use Rattle.wy_heap.specs.Meaning.{Means, IsMeant};
ghost use Rattle.wy_heap.specs.Parts.{IsKind};
ghost use Rattle.wy_heap.specs.Standing.{AreHeld};
ghost use Rattle.wy_heap.specs.Slots.{child, step_of, IsSlot, IsPath};
ghost use Rattle.wy_heap.specs.Numbering.{number_position};
ghost use Rattle.wy_value.specs.Shapes.{IsShapes};
ghost use Rattle.wy_heap.specs.declared.part.Part.TheVariants.{Key};

use crate::heap::Heap;
use crate::node::Shape;
use crate::part::{Kind, Part, Place, Slot};
use crate::slots::number_place;

impl Heap {
    /// Whether what a place holds has this slot: an array an item with the index, a record a field with the
    /// name. It takes no memory, and constant time, for a field linear in the fields of the record.
    pub fn has_slot(&self, p: &Place, s: Slot) -> bool
        requires held { AreHeld self.now (p.now ∷ []) }
        ensures yes { IsTrue result → IsSlot self.now p.now s }
        ensures no { result ≡ false → IsSlot self.now p.now s → ⊥ }
    {
        part_has_slot(self, p.part(), s)
    }

    /// Whether each slot of the path is there below what a place holds. It takes no memory, and time linear
    /// in the path and in the fields of the records on it.
    pub fn has_path(&self, p: &Place, path: &[Slot]) -> bool
        requires held { AreHeld self.now (p.now ∷ []) }
        ensures yes { IsTrue result → IsPath self.now p.now path.now }
        ensures no { result ≡ false → IsPath self.now p.now path.now → ⊥ }
    {
        part_has_path(self, p.part(), path)
    }

    /// What is in a slot. It takes no memory, and constant time, for a field linear in the fields of the
    /// record.
    pub fn kind_at(&self, p: &Place, s: Slot) -> Kind
        requires held { AreHeld self.now (p.now ∷ []) }
        requires there { IsSlot self.now p.now s }
        ensures value { (d : Datum) → Means (map_of self.now) d p.now → IsKind self.now.shapes (child d (step_of self.now.shapes s)) result }
    {
        let part = self.child(p.part(), s);
        self.part_kind(part)
    }
}

// whether each slot of the path is there
fn part_has_path(heap: &Heap, part: Part, path: &[Slot]) -> bool
    requires meant { IsMeant (map_of heap.now) part }
    requires table { IsShapes heap.now.shapes }
    ensures yes { IsTrue result → IsPath heap.now part path.now }
    ensures no { result ≡ false → IsPath heap.now part path.now → ⊥ }
{
    let mut at = part;
    for i in 0..path.len() {
        let slot = slot_at(path, i);
        if !part_has_slot(heap, at, slot) {
            return false;
        }
        at = heap.child(at, slot);
    }
    true
}

// the slot with this index
fn slot_at(path: &[Slot], i: usize) -> Slot
    requires { i < length path.now }
    ensures { result ≡ slice_index_or path.now i result }
{
    path[i]
}

// whether the slot is there
fn part_has_slot(heap: &Heap, part: Part, slot: Slot) -> bool
    requires meant { IsMeant (map_of heap.now) part }
    requires table { IsShapes heap.now.shapes }
    ensures yes { IsTrue result → IsSlot heap.now part slot }
    ensures no { result ≡ false → IsSlot heap.now part slot → ⊥ }
{
    match part {
        Part::Key(key) => node_has_slot(heap, key, slot),
        _ => false,
    }
}

fn node_has_slot(heap: &Heap, key: usize, slot: Slot) -> bool
    requires meant { IsMeant (map_of heap.now) (Key key) }
    requires table { IsShapes heap.now.shapes }
    ensures yes { IsTrue result → IsSlot heap.now (Key key) slot }
    ensures no { result ≡ false → IsSlot heap.now (Key key) slot → ⊥ }
{
    let node = &heap.nodes[key];
    match (node.shape, slot) {
        (Shape::Array, Slot::Item(index)) => index < node.parts.len() as u64,
        (Shape::Record(shape), Slot::Field(field)) => has_field(heap, shape, field),
        _ => false,
    }
}

// whether a shape has the field
fn has_field(heap: &Heap, shape: u32, field: u32) -> bool
    requires { shape < length heap.now.shapes.lists }
    ensures yes { IsTrue result → (list : List ℕ) × (slice_get heap.now.shapes.lists shape ≡ Some list) × (number_position field list < length list) }
    ensures no { result ≡ false → (list : List ℕ) → slice_get heap.now.shapes.lists shape ≡ Some list → length list ≤ number_position field list }
{
    let list = heap.fields_of(shape);
    number_place(list, field) < list.len()
}
