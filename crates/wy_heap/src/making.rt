//! New nodes: arrays and records of places, and nodes that share the parts of others.
ghost use Rattle.std.specs.Prelude.{◌≡◌, ◌≤◌, ◌<◌, ◌∷◌, [], ◌++◌, ℕ, List, IfOk, IfErr, OnErr, replicate, length, slice_get, Some, None, IsSome, ◌+◌, ◌⊎◌};
ghost use Rattle.slab.specs.Slab.{HasRoomFor, ContainsKey};
ghost use Rattle.wy_value.specs.Datum.{Datum, Data, Fields};
ghost use Rattle.wy_value.specs.Shapes.{named};
ghost use Rattle.wy_heap.specs.declared.part.Part.{Part};
ghost use Rattle.wy_heap.specs.declared.part.Part.TheVariants.{Key};
ghost use Rattle.wy_heap.specs.Nodes.{list_form, record_of, map_of, at, form_of, parts_in, held, count_at};
ghost use Rattle.wy_heap.specs.Meaning.{Means, MeanAll, IsNode};
ghost use Rattle.wy_heap.specs.Standing.{Stands, Counts, IsWithin, AreHeld, Acts, SameTable, IsAsBefore};
ghost use Rattle.wy_heap.specs.Slots.{joined};
ghost use Rattle.wy_heap.specs.Making.{repeated, HasShape, IsNew, Came, CanHave};
ghost use Rattle.wy_heap.specs.Copying.{CopiesBeside, CopiesNew};
ghost use Rattle.wy_heap.specs.Changing.{SameRest, SameNodes, Leads, Adds, Joins, JoinsAlone, HasRoom, AreThere, Fits, Builds};

use crate::heap::Heap;
use crate::node::{Node, Shape};
use crate::part::{Part, Place, spend};
use std::alloc::AllocError;

impl Heap {
    /// An array of these, in time linear in their number. At want of memory they are handed back.
    pub fn array(&mut self, items: Vec<Place>) -> Result<Place, Vec<Place>>
        requires held { AreHeld self.old items.items }
        ensures acts { IfOk result (λ made. (others : List Part) → Stands self.old (items.items ++ others) → Acts self.old self.new (made ∷ []) others) }
        ensures value { IfOk result (λ made. (ds : Data) → MeanAll (map_of self.old) ds items.items → Means (map_of self.new) (Datum.Array ds) made) }
        ensures new { IfOk result (λ made. IsNew (map_of self.old) (map_of self.new) made list_form items.items) }
        ensures back { IfErr result (λ back. back ≡ items) }
        ensures no_memory { OnErr result (IsAsBefore self.old self.new) }
        ensures kept { SameTable self.old self.new }
        ensures copies { self.new.copies ≡ self.old.copies }
    {
        self.make(Shape::Array, items)
    }

    /// A record of the shape with this number, with these for its fields in the order of the shape's
    /// list, in time linear in their number. At want of memory they are handed back.
    pub fn record(&mut self, shape: u32, items: Vec<Place>) -> Result<Place, Vec<Place>>
        requires held { AreHeld self.old items.items }
        requires shape { HasShape self.old.shapes shape (length items.items) }
        ensures acts { IfOk result (λ made. (others : List Part) → Stands self.old (items.items ++ others) → Acts self.old self.new (made ∷ []) others) }
        ensures value { IfOk result (λ made. (list : List ℕ) (ds : Data) → slice_get self.old.shapes.lists shape ≡ Some list → MeanAll (map_of self.old) ds items.items → Means (map_of self.new) (Datum.Record (joined (named self.old.shapes.names list) ds)) made) }
        ensures new { IfOk result (λ made. IsNew (map_of self.old) (map_of self.new) made (record_of self.old.shapes.names (slice_get self.old.shapes.lists shape)) items.items) }
        ensures back { IfErr result (λ back. back ≡ items) }
        ensures no_memory { OnErr result (IsAsBefore self.old self.new) }
        ensures kept { SameTable self.old self.new }
        ensures copies { self.new.copies ≡ self.old.copies }
    {
        match self.make(Shape::Record(shape), items) {
            Ok(made) => Ok(made),
            Err(items) => Err(items),
        }
    }

    // a node of these
    fn make(&mut self, shape: Shape, items: Vec<Place>) -> Result<Place, Vec<Place>>
        requires held { AreHeld self.old items.items }
        requires fits { Fits (map_of self.old) (form_of self.old.shapes shape) items.items }
        ensures acts { IfOk result (λ made. (others : List Part) → Stands self.old (items.items ++ others) → Acts self.old self.new (made ∷ []) others) }
        ensures node { IfOk result (λ made. (ds : Data) → MeanAll (map_of self.old) ds items.items → IsNode (map_of self.new) made (form_of self.old.shapes shape) ds) }
        ensures new { IfOk result (λ made. IsNew (map_of self.old) (map_of self.new) made (form_of self.old.shapes shape) items.items) }
        ensures back { IfErr result (λ back. back ≡ items) }
        ensures no_memory { OnErr result (IsAsBefore self.old self.new) }
        ensures rest { SameRest self.old self.new }
    {
        let Ok(parts) = self.words(&items) else {
            return Err(items);
        };
        let Ok(key) = self.put(shape, parts) else {
            return Err(items);
        };
        spend(items);
        Ok(Place::of(Part::Key(key)))
    }

    // the parts of these places
    fn words(&self, items: &[Place]) -> Result<Vec<Part>, AllocError>
        ensures { IfOk result (λ words. words.items ≡ items.now) }
    {
        let mut words = Vec::with_capacity(self.alloc, items.len())?;
        for item in items {
            words.push(item.part())?;
        }
        Ok(words)
    }

    // a node of these parts, whose holds go over to it
    fn put(&mut self, shape: Shape, parts: Vec<Part>) -> Result<usize, AllocError>
        ensures adds { IfOk result (λ key. Adds self.old self.new key shape parts.items) }
        ensures same { OnErr result (SameNodes self.old self.new) }
        ensures rest { SameRest self.old self.new }
    {
        let Ok(key) = self.nodes.insert(Node {
            count: 1,
            next: None,
            shape,
            parts,
        })
        else {
            return Err(AllocError);
        };
        Ok(key)
    }

    /// An array of so many times the item. Each slot takes a hold before the item's own goes; where that
    /// would pass the cap some slots get a copy, and `copies` rises by as many nodes as came beside the array.
    /// It is linear in the number of items and the parts of what is copied. At want of memory the item is
    /// handed back.
    pub fn fill(&mut self, item: Place, n: u64) -> Result<Place, Place>
        requires held { AreHeld self.old (item ∷ []) }
        ensures acts { IfOk result (λ made. (others : List Part) → Stands self.old (item ∷ others) → Acts self.old self.new (made ∷ []) others) }
        ensures value { IfOk result (λ made. (d : Datum) → Means (map_of self.old) d item → Means (map_of self.new) (Datum.Array (repeated n d)) made) }
        ensures back { IfErr result (λ back. back ≡ item) }
        ensures no_memory { OnErr result (IsAsBefore self.old self.new) }
        ensures kept { SameTable self.old self.new }
        ensures copies { IfOk result (λ made. CopiesNew 1 self.old self.new) }
        ensures below { CanHave self.old n item → self.new.copies ≡ self.old.copies }
        ensures new { IfOk result (λ made. 1 ≤ n → CanHave self.old n item → IsNew (map_of self.old) (map_of self.new) made list_form (replicate n item)) }
        ensures came { IfOk result (λ made. CanHave self.old n item → Came (map_of self.old) (map_of self.new) made list_form (replicate n item)) }
        ensures others { IfOk result (λ made. (k : ℕ) → IsSome (at (map_of self.old) k) → (at (map_of self.new) k ≡ None) ⊎ (at (map_of self.new) k ≡ at (map_of self.old) k)) }
    {
        let before = self.copies;
        let Ok(words) = self.times(item.part(), n as usize) else {
            return Err(item);
        };
        let Ok(key) = self.build(Shape::Array, words) else {
            self.copies = before;
            return Err(item);
        };
        let part = item.spent();
        self.free(part);
        Ok(Place::of(Part::Key(key)))
    }

    // so many times the part
    pub(crate) fn times(&self, part: Part, n: usize) -> Result<Vec<Part>, AllocError>
        ensures { IfOk result (λ words. words.items ≡ replicate n part) }
    {
        let mut words = Vec::with_capacity(self.alloc, n)?;
        for i in 0..n {
            words.push(part)?;
        }
        Ok(words)
    }

    // the parts of a node
    pub(crate) fn words_at(&self, key: usize) -> Result<Vec<Part>, AllocError>
        requires { ContainsKey self.now.nodes key }
        ensures { IfOk result (λ words. words.items ≡ parts_in (at (map_of self.now) key)) }
    {
        let mut words = Vec::new(self.alloc);
        words.extend_from_slice(&self.nodes[key].parts)?;
        Ok(words)
    }

    // a node of these parts, each of which gets a holder more; those that then have more than the cap
    // allows are copied
    pub(crate) fn build(&mut self, shape: Shape, parts: Vec<Part>) -> Result<usize, AllocError>
        requires held { (places : List Part) × Counts self.old places }
        requires within { IsWithin self.old }
        requires some { 1 ≤ self.old.cap }
        requires there { AreThere self.old parts.items }
        requires fits { Fits (map_of self.old) (form_of self.old.shapes shape) parts.items }
        ensures builds { IfOk result (λ made. Builds self.old self.new (form_of self.old.shapes shape) parts.items made) }
        ensures room { IfOk result (λ made. HasRoom self.old parts.items → JoinsAlone self.old self.new made (form_of self.old.shapes shape) parts.items) }
        ensures copies { IfOk result (λ made. CopiesBeside 1 self.old self.new) }
        ensures within { IsWithin self.new }
        ensures no_memory { OnErr result (SameNodes self.old self.new) }
        ensures kept { SameTable self.old self.new }
    {
        let most = u64::from(self.cap);
        let made = self.join(shape, parts)?;
        if self.are_within(&self.nodes[made].parts, most) {
            return Ok(made);
        }
        match self.settle(made) {
            Ok(()) => Ok(made),
            Err(error) => {
                self.free(Part::Key(made));
                Err(error)
            }
        }
    }

    // a node of these parts, each of which gets a holder more
    pub(crate) fn join(&mut self, shape: Shape, parts: Vec<Part>) -> Result<usize, AllocError>
        requires there { AreThere self.old parts.items }
        requires below { (k : ℕ) → 1 ≤ held k parts.items → count_at self.old k + length parts.items ≤ u64.MAX }
        ensures joins { IfOk result (λ made. Joins self.old self.new made (form_of self.old.shapes shape) parts.items) }
        ensures no_memory { OnErr result (SameNodes self.old self.new) }
        ensures rest { SameRest self.old self.new }
    {
        self.nodes.reserve(1)?;
        self.hold_all(&parts);
        Ok(
            self.nodes.insert_reserved(Node {
                count: 1,
                next: None,
                shape,
                parts,
            }),
        )
    }
}
