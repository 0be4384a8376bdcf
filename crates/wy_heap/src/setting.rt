//! Writes at a path: in place as far as one place alone holds each node, and by copies from there on.
ghost use Rattle.std.specs.Prelude.{◌≡◌, ◌≤◌, ◌∷◌, [], ◌++◌, ℕ, List, IfOk, IfErr, OnOk, OnErr, IsOk, length, slice_set};
ghost use Rattle.wy_value.specs.Datum.{Datum};
ghost use Rattle.wy_value.specs.Shapes.{IsShapes};
ghost use Rattle.wy_heap.specs.declared.part.Part.{Part};
ghost use Rattle.wy_heap.specs.declared.part.Part.TheVariants.{Key, Null};
ghost use Rattle.wy_heap.specs.Nodes.{map_of, at, form_in, parts_in, count_at};
ghost use Rattle.wy_heap.specs.Meaning.{Means};
ghost use Rattle.wy_heap.specs.Standing.{Stands, Counts, IsWithin, AreHeld, Acts, SameTable, IsAsBefore};
ghost use Rattle.wy_heap.specs.Slots.{steps_of, put, IsPath};
ghost use Rattle.wy_heap.specs.Changing.{SameNodes, IsNodeSlot, Builds, Wrote, HasRoom, JoinsCopy, CopiesOnly};
ghost use Rattle.wy_heap.specs.Copying.{CopiesAsMany};
ghost use Rattle.wy_heap.specs.Putting.{IsSole, Sole, CountsCopies, Puts, RoomForCopies, RoomAlong, CopiesAlong};

use crate::heap::Heap;
use crate::part::{Part, Place, Slot};
use std::alloc::AllocError;
use std::mem;

// the count of a node that may be written in place
const SOLE: u64 = 1;

impl Heap {
    /// Puts `v` into the slot at the end of a path below what `p` holds; what was there is released.
    /// The nodes on the path are written in place up to the first that has a second holder; this one and
    /// those below it are copied. At want of memory everything is as before and `v` is handed back. It
    /// takes no memory where each node on the path has one holder. Its cost is linear in the path, the
    /// parts of the nodes that are copied and those that are freed.
    pub fn set(&mut self, p: &mut Place, path: &[Slot], v: Place) -> Result<(), Place>
        requires held { AreHeld self.old (p.old ∷ v ∷ []) }
        requires there { IsPath self.old p.old path.now }
        ensures acts { OnOk result ((others : List Part) → Stands self.old (p.old ∷ v ∷ others) → Acts self.old self.new (p.new ∷ []) others) }
        ensures value { OnOk result ((w u : Datum) → Means (map_of self.old) w p.old → Means (map_of self.old) u v → Means (map_of self.new) (put w (steps_of self.old.shapes path.now) u) p.new) }
        ensures sole { Sole self.old p.old (steps_of self.old.shapes path.now) → IsOk result }
        ensures copies { OnOk result (CountsCopies self.old self.new p.old (steps_of self.old.shapes path.now)) }
        ensures puts { OnOk result (RoomAlong self.old p.old (steps_of self.old.shapes path.now) → Puts self.old self.new p.old (steps_of self.old.shapes path.now) v p.new) }
        ensures back { IfErr result (λ back. back ≡ v) }
        ensures same { OnErr result (p.new ≡ p.old) }
        ensures no_memory { OnErr result (IsAsBefore self.old self.new) }
        ensures kept { SameTable self.old self.new }
    {
        let before = self.copies;
        match self.put_along(p.part(), path, v.part()) {
            Ok(made) => {
                let _part = v.spent();
                let _old = mem::replace(p, Place::of(made)).spent();
                Ok(())
            }
            Err(_) => {
                self.copies = before;
                Err(v)
            }
        }
    }

    // the whole with the part at the end of the path. A path of one step into a node with one holder, as most are, needs no recursion.
    #[inline(always)]
    fn put_along(&mut self, whole: Part, path: &[Slot], part: Part) -> Result<Part, AllocError>
        requires held { (others : List Part) × Counts self.old (whole ∷ part ∷ others) }
        requires within { IsWithin self.old }
        requires some { 1 ≤ self.old.cap }
        requires table { IsShapes self.old.shapes }
        requires there { IsPath self.old whole path.now }
        ensures wrote { IfOk result (λ made. Wrote self.old self.new (whole ∷ part ∷ []) whole (steps_of self.old.shapes path.now) part made) }
        ensures copies { IfOk result (λ made. CountsCopies self.old self.new whole (steps_of self.old.shapes path.now)) }
        ensures room { IfOk result (λ made. RoomAlong self.old whole (steps_of self.old.shapes path.now) → Puts self.old self.new whole (steps_of self.old.shapes path.now) part made) }
        ensures within { IsWithin self.new }
        ensures sole { Sole self.old whole (steps_of self.old.shapes path.now) → IsOk result }
        ensures no_memory { OnErr result (SameNodes self.old self.new) }
        ensures kept { SameTable self.old self.new }
    {
        if let [_] = path {
            if let Part::Key(key) = whole {
                if self.nodes[key].count == SOLE {
                    self.put_here(key, path, part);
                    return Ok(Part::Key(key));
                }
            }
        }
        self.written(whole, path, part)
    }

    // the part at the end of a path of one step, in the node with this key, which has one holder
    #[inline(always)]
    fn put_here(&mut self, key: usize, path: &[Slot], part: Part)
        requires held { (others : List Part) × Counts self.old (Key key ∷ part ∷ others) }
        requires within { IsWithin self.old }
        requires table { IsShapes self.old.shapes }
        requires there { IsPath self.old (Key key) path.now }
        requires last { length path.now ≡ 1 }
        requires sole { count_at self.old key ≡ 1 }
        ensures wrote { Wrote self.old self.new (Key key ∷ part ∷ []) (Key key) (steps_of self.old.shapes path.now) part (Key key) }
        ensures copies { CountsCopies self.old self.new (Key key) (steps_of self.old.shapes path.now) }
        ensures room { RoomAlong self.old (Key key) (steps_of self.old.shapes path.now) → Puts self.old self.new (Key key) (steps_of self.old.shapes path.now) part (Key key) }
        ensures within { IsWithin self.new }
        ensures kept { SameTable self.old self.new }
    {
        let [step, ..] = path else { unreachable!() };
        let place = self.position(key, *step);
        let child = self.swap(key, place, Part::Null);
        self.free(child);
        self.lay(key, place, part);
    }

    // the whole with the part at the end of the path
    fn written(&mut self, whole: Part, path: &[Slot], part: Part) -> Result<Part, AllocError>
        requires held { (others : List Part) × Counts self.old (whole ∷ part ∷ others) }
        requires within { IsWithin self.old }
        requires some { 1 ≤ self.old.cap }
        requires table { IsShapes self.old.shapes }
        requires there { IsPath self.old whole path.now }
        ensures wrote { IfOk result (λ made. Wrote self.old self.new (whole ∷ part ∷ []) whole (steps_of self.old.shapes path.now) part made) }
        ensures copies { IfOk result (λ made. CountsCopies self.old self.new whole (steps_of self.old.shapes path.now)) }
        ensures room { IfOk result (λ made. RoomAlong self.old whole (steps_of self.old.shapes path.now) → Puts self.old self.new whole (steps_of self.old.shapes path.now) part made) }
        ensures within { IsWithin self.new }
        ensures sole { Sole self.old whole (steps_of self.old.shapes path.now) → IsOk result }
        ensures no_memory { OnErr result (SameNodes self.old self.new) }
        ensures kept { SameTable self.old self.new }
    {
        let [step, rest @ ..] = path else {
            self.free(whole);
            return Ok(part);
        };
        let Part::Key(key) = whole else {
            unreachable!()
        };
        if self.nodes[key].count == SOLE {
            if rest.is_empty() {
                self.put_here(key, path, part);
                return Ok(Part::Key(key));
            }
            let place = self.position(key, *step);
            let child = self.swap(key, place, Part::Null);
            match self.written(child, rest, part) {
                Ok(below) => {
                    self.lay(key, place, below);
                    Ok(Part::Key(key))
                }
                Err(error) => {
                    self.swap(key, place, child);
                    Err(error)
                }
            }
        } else {
            self.written_copy(whole, path, part)
        }
    }

    // the same by copies alone
    fn written_copy(&mut self, whole: Part, path: &[Slot], part: Part) -> Result<Part, AllocError>
        requires held { (others : List Part) × Counts self.old (whole ∷ part ∷ others) }
        requires within { IsWithin self.old }
        requires some { 1 ≤ self.old.cap }
        requires table { IsShapes self.old.shapes }
        requires there { IsPath self.old whole path.now }
        requires many { IsSole self.old whole → ⊥ }
        ensures wrote { IfOk result (λ made. Wrote self.old self.new (whole ∷ part ∷ []) whole (steps_of self.old.shapes path.now) part made) }
        ensures copies { IfOk result (λ made. CopiesAsMany self.old self.new) }
        ensures room { IfOk result (λ made. RoomAlong self.old whole (steps_of self.old.shapes path.now) → Puts self.old self.new whole (steps_of self.old.shapes path.now) part made) }
        ensures within { IsWithin self.new }
        ensures no_memory { OnErr result (SameNodes self.old self.new) }
        ensures kept { SameTable self.old self.new }
    {
        match self.copied(whole, path, part) {
            Ok(made) => {
                self.free(whole);
                Ok(made)
            }
            Err(error) => Err(error),
        }
    }

    // copies of the nodes on the path, with the part at its end
    fn copied(&mut self, whole: Part, path: &[Slot], part: Part) -> Result<Part, AllocError>
        requires held { (others : List Part) × Counts self.old (part ∷ others) }
        requires within { IsWithin self.old }
        requires some { 1 ≤ self.old.cap }
        requires table { IsShapes self.old.shapes }
        requires there { IsPath self.old whole path.now }
        ensures wrote { IfOk result (λ made. Wrote self.old self.new (part ∷ []) whole (steps_of self.old.shapes path.now) part made) }
        ensures only { IfOk result (λ made. CopiesOnly self.old self.new) }
        ensures room { IfOk result (λ made. RoomForCopies self.old whole (steps_of self.old.shapes path.now) → CopiesAlong self.old self.new whole (steps_of self.old.shapes path.now) part made) }
        ensures within { IsWithin self.new }
        ensures no_memory { OnErr result (SameNodes self.old self.new) }
        ensures kept { SameTable self.old self.new }
    {
        let [step, rest @ ..] = path else {
            return Ok(part);
        };
        let Part::Key(key) = whole else {
            unreachable!()
        };
        let place = self.position(key, *step);
        let child = self.part_in(key, place);
        let top = self.copy_without(key, place)?;
        match self.copied(child, rest, part) {
            Ok(below) => {
                self.swap(top, place, below);
                Ok(Part::Key(top))
            }
            Err(error) => {
                self.free(Part::Key(top));
                Err(error)
            }
        }
    }

    // a copy of a node, with null in a slot
    fn copy_without(&mut self, key: usize, place: usize) -> Result<usize, AllocError>
        requires held { (others : List Part) × Counts self.old others }
        requires within { IsWithin self.old }
        requires some { 1 ≤ self.old.cap }
        requires there { IsNodeSlot (map_of self.old) key place }
        ensures builds { IfOk result (λ made. Builds self.old self.new (form_in (at (map_of self.old) key)) (slice_set (parts_in (at (map_of self.old) key)) place Null) made) }
        ensures room { IfOk result (λ made. HasRoom self.old (slice_set (parts_in (at (map_of self.old) key)) place Null) → JoinsCopy self.old self.new made (form_in (at (map_of self.old) key)) (slice_set (parts_in (at (map_of self.old) key)) place Null)) }
        ensures copies { IfOk result (λ made. CopiesAsMany self.old self.new) }
        ensures within { IsWithin self.new }
        ensures no_memory { OnErr result (SameNodes self.old self.new) }
        ensures kept { SameTable self.old self.new }
    {
        let shape = self.nodes[key].shape;
        let mut parts = self.words_at(key)?;
        parts[place] = Part::Null;
        let made = self.build(shape, parts)?;
        self.copies = self.copies.saturating_add(1);
        Ok(made)
    }
}
