//! Holds: a second place for what a place holds.
ghost use Rattle.std.specs.Prelude.{◌≡◌, ◌+◌, ◌<◌, ◌≤◌, ◌∷◌, [], ◌++◌, ◌↔◌, ℕ, List, Ok, IfOk, OnErr, IsTrue, true, false, length};
ghost use Rattle.slab.specs.Slab.{HasRoomFor, ContainsKey};
ghost use Rattle.wy_value.specs.Datum.{Datum};
ghost use Rattle.wy_heap.specs.declared.part.Part.{Part};
ghost use Rattle.wy_heap.specs.declared.part.Part.TheVariants.{Key};
ghost use Rattle.wy_heap.specs.Nodes.{map_of, at, form_in, parts_in, count_at, holds, held};
ghost use Rattle.wy_heap.specs.Meaning.{Means};
ghost use Rattle.wy_heap.specs.Standing.{Stands, Counts, IsWithin, AreHeld, Acts, SameTable, IsAsBefore};
ghost use Rattle.wy_heap.specs.Parts.{IsThere, IsBelow};
ghost use Rattle.wy_heap.specs.Changing.{SameRest, SameNodes, Leads, AreThere, Builds, More};
ghost use Rattle.wy_heap.specs.Copying.{CopiesAsMany};

use crate::heap::Heap;
use crate::part::{Part, Place};
use std::alloc::AllocError;
use wy_items::NoMemory;

impl Heap {
    /// A second hold on what a place holds. It takes no memory where the place holds no node, or one
    /// with fewer holders than the cap, and its cost is constant then. At the cap the new place holds a copy,
    /// whose parts are shared, or copied in turn where they are at the cap, by a list of new nodes; that is
    /// linear in the parts of what is copied.
    #[inline(always)]
    pub fn share(&mut self, p: &Place) -> Result<Place, NoMemory>
        requires held { AreHeld self.old (p.now ∷ []) }
        ensures acts { IfOk result (λ made. (others : List Part) → Stands self.old (p.now ∷ others) → Acts self.old self.new (made ∷ []) (p.now ∷ others)) }
        ensures value { IfOk result (λ made. (d : Datum) → Means (map_of self.old) d p.now → Means (map_of self.new) d made) }
        ensures below { IsBelow self.old self.old.cap p.now → (result ≡ Ok p.now) × (map_of self.new ≡ map_of self.old) × (self.new.copies ≡ self.old.copies) }
        ensures stays { IfOk result (λ made. More (map_of self.old) (map_of self.new)) }
        ensures copies { IfOk result (λ made. CopiesAsMany self.old self.new) }
        ensures no_memory { OnErr result (IsAsBefore self.old self.new) }
        ensures kept { SameTable self.old self.new }
    {
        let part = self.again(p.part())?;
        Ok(Place::of(part))
    }

    // a hold more on this part, or on a copy of it
    #[inline(always)]
    pub(crate) fn again(&mut self, part: Part) -> Result<Part, NoMemory>
        requires held { (places : List Part) × Counts self.old places }
        requires within { IsWithin self.old }
        requires some { 1 ≤ self.old.cap }
        requires there { IsThere self.old part }
        ensures leads { IfOk result (λ made. (others : List Part) → Counts self.old others → Leads self.old self.new (made ∷ []) others) }
        ensures value { IfOk result (λ made. (d : Datum) → Means (map_of self.old) d part → Means (map_of self.new) d made) }
        ensures within { IsWithin self.new }
        ensures below { IsBelow self.old self.old.cap part → (result ≡ Ok part) × (map_of self.new ≡ map_of self.old) × (self.new.copies ≡ self.old.copies) }
        ensures stays { IfOk result (λ made. More (map_of self.old) (map_of self.new)) }
        ensures copies { IfOk result (λ made. CopiesAsMany self.old self.new) }
        ensures no_memory { OnErr result (IsAsBefore self.old self.new) }
        ensures kept { SameTable self.old self.new }
    {
        if self.has_room(part) {
            self.hold(part);
            Ok(part)
        } else {
            self.copy_of(part)
        }
    }

    // a hold on a copy of the node that the part holds
    #[inline(never)]
    fn copy_of(&mut self, part: Part) -> Result<Part, NoMemory>
        requires held { (places : List Part) × Counts self.old places }
        requires within { IsWithin self.old }
        requires some { 1 ≤ self.old.cap }
        requires there { IsThere self.old part }
        requires full { IsBelow self.old self.old.cap part → ⊥ }
        ensures leads { IfOk result (λ made. (others : List Part) → Counts self.old others → Leads self.old self.new (made ∷ []) others) }
        ensures value { IfOk result (λ made. (d : Datum) → Means (map_of self.old) d part → Means (map_of self.new) d made) }
        ensures within { IsWithin self.new }
        ensures stays { IfOk result (λ made. More (map_of self.old) (map_of self.new)) }
        ensures copies { IfOk result (λ made. CopiesAsMany self.old self.new) }
        ensures no_memory { OnErr result (IsAsBefore self.old self.new) }
        ensures kept { SameTable self.old self.new }
    {
        let Part::Key(key) = part else { unreachable!() };
        let before = self.copies;
        match self.copy_node(key) {
            Ok(made) => Ok(Part::Key(made)),
            Err(_) => {
                self.copies = before;
                Err(NoMemory)
            }
        }
    }

    // a copy of a node, which shares its parts
    fn copy_node(&mut self, key: usize) -> Result<usize, AllocError>
        requires held { (places : List Part) × Counts self.old places }
        requires within { IsWithin self.old }
        requires some { 1 ≤ self.old.cap }
        requires there { ContainsKey self.old.nodes key }
        ensures builds { IfOk result (λ made. Builds self.old self.new (form_in (at (map_of self.old) key)) (parts_in (at (map_of self.old) key)) made) }
        ensures copies { IfOk result (λ made. CopiesAsMany self.old self.new) }
        ensures within { IsWithin self.new }
        ensures no_memory { OnErr result (SameNodes self.old self.new) }
        ensures kept { SameTable self.old self.new }
    {
        let shape = self.nodes[key].shape;
        let parts = self.words_at(key)?;
        let made = self.build(shape, parts)?;
        self.copies = self.copies.saturating_add(1);
        Ok(made)
    }

    // whether the part can have a holder more within the cap
    fn has_room(&self, part: Part) -> bool
        requires { IsThere self.now part }
        ensures room { IsTrue result ↔ IsBelow self.now self.now.cap part }
        ensures within { IsTrue result → IsBelow self.now u64.MAX part }
    {
        match part {
            Part::Key(key) => self.nodes[key].count < u64::from(self.cap),
            _ => true,
        }
    }

    // a hold more on this part
    pub(crate) fn hold(&mut self, part: Part)
        requires there { IsThere self.old part }
        requires below { IsBelow self.old u64.MAX part }
        ensures nodes { map_of self.new ≡ map_of self.old }
        ensures counts { (k : ℕ) → count_at self.new k ≡ count_at self.old k + holds k part }
        ensures room { (n : ℕ) → HasRoomFor self.old.nodes n → HasRoomFor self.new.nodes n }
        ensures rest { SameRest self.old self.new }
    {
        if let Part::Key(key) = part {
            let node = &mut self.nodes[key];
            node.count += 1;
        }
    }

    // whether the part has more holders than this
    fn is_over(&self, part: Part, most: u64) -> bool
        requires { IsThere self.now part }
        ensures yes { IsTrue result → (k : ℕ) × (part ≡ Key k) × (most < count_at self.now k) }
        ensures no { result ≡ false → (k : ℕ) → part ≡ Key k → count_at self.now k ≤ most }
    {
        match part {
            Part::Key(key) => self.nodes[key].count > most,
            _ => false,
        }
    }

    // whether none of these parts has more holders than this
    pub(crate) fn are_within(&self, parts: &[Part], most: u64) -> bool
        requires { AreThere self.now parts.now }
        ensures yes { IsTrue result → (k : ℕ) → 1 ≤ held k parts.now → count_at self.now k ≤ most }
        ensures no { result ≡ false → (k : ℕ) × (1 ≤ held k parts.now) × (most < count_at self.now k) }
    {
        for part in parts {
            if self.is_over(*part, most) {
                return false;
            }
        }
        true
    }

    // whether the part can have so many holders more within the limit
    fn can_hold(&self, part: Part, more: usize, limit: u64) -> bool
        requires { IsThere self.now part }
        ensures { result ≡ true → (k : ℕ) → part ≡ Key k → count_at self.now k + more ≤ limit }
    {
        match part {
            Part::Key(key) => {
                let more = more as u64;
                more <= limit && self.nodes[key].count <= limit - more
            }
            _ => true,
        }
    }

    // whether each of these parts can have a holder more for each of them within the limit
    pub(crate) fn can_hold_all(&self, parts: &[Part], limit: u64) -> bool
        requires { AreThere self.now parts.now }
        ensures { result ≡ true → (k : ℕ) → 1 ≤ held k parts.now → count_at self.now k + length parts.now ≤ limit }
    {
        for part in parts {
            if !self.can_hold(*part, parts.len(), limit) {
                return false;
            }
        }
        true
    }

    // a hold more on each of these parts
    pub(crate) fn hold_all(&mut self, parts: &[Part])
        requires there { AreThere self.old parts.now }
        requires below { (k : ℕ) → 1 ≤ held k parts.now → count_at self.old k + length parts.now ≤ u64.MAX }
        ensures nodes { map_of self.new ≡ map_of self.old }
        ensures counts { (k : ℕ) → count_at self.new k ≡ count_at self.old k + held k parts.now }
        ensures room { (n : ℕ) → HasRoomFor self.old.nodes n → HasRoomFor self.new.nodes n }
        ensures rest { SameRest self.old self.new }
    {
        for part in parts {
            self.hold(*part);
        }
    }
}
