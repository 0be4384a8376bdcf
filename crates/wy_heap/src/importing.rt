//! Values from outside: each array and each record of a value becomes a node of its own.
//!
//! The value is walked along a list of the values that are begun, with a place in each, so an import takes
//! no stack however deep the value nests. The parts that are done and in no node yet stand in a second list.
ghost use Rattle.std.specs.Prelude.{◌≡◌, ◌≤◌, ◌<◌, ◌∷◌, [], ◌++◌, ℕ, List, IfOk, OnOk, OnErr, MatchOption, length};
ghost use Rattle.wy_value.specs.Datum.{Datum};
ghost use Rattle.wy_value.specs.Seen.{seen, seen_items, seen_fields};
ghost use Rattle.wy_value.specs.Values.{IsDatum, length_of};
ghost use Rattle.wy_value.specs.Shapes.{IsShapes};
ghost use Rattle.wy_heap.specs.declared.part.Part.{Part};
ghost use Rattle.wy_heap.specs.Nodes.{map_of, form_of};
ghost use Rattle.wy_heap.specs.Meaning.{Means, data_in};
ghost use Rattle.wy_heap.specs.Slots.{nth};
ghost use Rattle.wy_heap.specs.Standing.{Stands, Counts, IsWithin, AreHeld, Acts, IsAsBefore};
ghost use Rattle.wy_heap.specs.Changing.{SameRest};
ghost use Rattle.wy_heap.specs.Importing.{Carries, Grew, OnlyOnes, IsKid, kids, jobs_of, Ready, works, LastFit, Gathers, HasKids, Finishes};

use crate::heap::Heap;
use crate::node::{Node, Shape};
use crate::part::{Part, Place};
use crate::table::shape_number;
use std::alloc::AllocError;
use wy_data::Name;
use wy_items::NoMemory;
use wy_value::Value;

impl Heap {
    /// A place for a value from outside, in which each array and each record is a new node with one
    /// holder. The table gets the names and shapes that it lacks. At want of memory the nodes are as
    /// before; the table may have grown. It is linear in the value, and for each record in the names and
    /// shapes of the table. It takes no stack, and besides the nodes as much memory as the value nests and
    /// the records and arrays that are begun have parts.
    pub fn import(&mut self, v: &Value) -> Result<Place, NoMemory>
        requires held { AreHeld self.old [] }
        requires datum { IsDatum (seen v.now) }
        ensures acts { IfOk result (λ made. (others : List Part) → Stands self.old others → Acts self.old self.new (made ∷ []) others) }
        ensures value { IfOk result (λ made. Means (map_of self.new) (seen v.now) made) }
        ensures no_memory { OnErr result (IsAsBefore self.old self.new) }
        ensures grew { Grew self.old self.new }
        ensures ones { OnlyOnes self.old self.new }
    {
        let mut done: Vec<Part> = Vec::new(self.alloc);
        match self.import_all(v, &mut done) {
            Ok(part) => Ok(Place::of(part)),
            Err(_) => {
                self.free_all(&done);
                Err(NoMemory)
            }
        }
    }

    // the part for the value, which then stands alone in the list
    fn import_all(&mut self, value: &Value, done: &mut Vec<Part>) -> Result<Part, AllocError>
        requires empty { done.old.items ≡ [] }
        requires held { (others : List Part) × Counts self.old others }
        requires some { 1 ≤ self.old.cap }
        requires table { IsShapes self.old.shapes }
        requires datum { IsDatum (seen value.now) }
        ensures alone { IfOk result (λ part. done.new.items ≡ part ∷ []) }
        ensures value { IfOk result (λ part. Means (map_of self.new) (seen value.now) part) }
        ensures carries { Carries self.old self.new [] done.new.items }
        ensures grew { Grew self.old self.new }
        ensures ones { OnlyOnes self.old self.new }
    {
        let mut todo: Vec<(&Value, usize)> = Vec::new(self.alloc);
        todo.push((value, 0))?;
        'jobs: while let Some((begun, place)) = todo.pop() {
            self.import_step(begun, place, &mut todo, done)?;
        }
        Ok(done[0])
    }

    // goes on with a value that is begun: to the next one in it, or to the part for the whole
    fn import_step<'v>(
        &mut self,
        value: &'v Value,
        place: usize,
        todo: &mut Vec<(&'v Value, usize)>,
        done: &mut Vec<Part>,
    ) -> Result<(), AllocError>
        requires held { (others : List Part) × Counts self.old (done.old.items ++ others) }
        requires some { 1 ≤ self.old.cap }
        requires table { IsShapes self.old.shapes }
        requires ready { (d : Datum) × Ready (map_of self.old) d ((seen value.now, place) ∷ jobs_of todo.old.items) done.old.items }
        ensures ready { OnOk result ((d : Datum) → Ready (map_of self.old) d ((seen value.now, place) ∷ jobs_of todo.old.items) done.old.items → Ready (map_of self.new) d (jobs_of todo.new.items) done.new.items) }
        ensures less { OnOk result (works (jobs_of todo.new.items) < works ((seen value.now, place) ∷ jobs_of todo.old.items)) }
        ensures carries { Carries self.old self.new done.old.items done.new.items }
        ensures grew { Grew self.old self.new }
        ensures ones { OnlyOnes self.old self.new }
    {
        match kid(value, place) {
            Some(part) => {
                todo.push((value, place + 1))?;
                todo.push((part, 0))?;
                Ok(())
            }
            None => {
                self.finish(value, place, done)?;
                Ok(())
            }
        }
    }

    // the part for a value, in place of the last parts, which stand for what is in it
    fn finish(&mut self, value: &Value, many: usize, done: &mut Vec<Part>) -> Result<(), AllocError>
        requires held { (others : List Part) × Counts self.old (done.old.items ++ others) }
        requires some { 1 ≤ self.old.cap }
        requires table { IsShapes self.old.shapes }
        requires datum { IsDatum (seen value.now) }
        requires kids { HasKids (map_of self.old) (seen value.now) done.old.items many }
        ensures finishes { OnOk result (Finishes (map_of self.old) (map_of self.new) (seen value.now) done.old.items done.new.items many) }
        ensures carries { Carries self.old self.new done.old.items done.new.items }
        ensures grew { Grew self.old self.new }
        ensures ones { OnlyOnes self.old self.new }
    {
        match value {
            Value::Null => {
                done.push(Part::Null)?;
                Ok(())
            }
            Value::Bool(b) => {
                done.push(Part::Bool(*b))?;
                Ok(())
            }
            Value::Int(n) => {
                done.push(Part::Int(*n))?;
                Ok(())
            }
            Value::Array(_) => {
                self.gather(Shape::Array, many, done)?;
                Ok(())
            }
            Value::Record(fields) => {
                let shape = shape_number(self.alloc, &mut self.shapes, fields.as_slice())?;
                self.gather(Shape::Record(shape), many, done)?;
                Ok(())
            }
        }
    }

    // a node of so many last parts, whose holds go over to it; it stands in their place
    fn gather(&mut self, shape: Shape, many: usize, done: &mut Vec<Part>) -> Result<(), AllocError>
        requires held { (others : List Part) × Counts self.old (done.old.items ++ others) }
        requires fits { LastFit (map_of self.old) (form_of self.old.shapes shape) done.old.items many }
        ensures gathers { OnOk result (Gathers self.old self.new (form_of self.old.shapes shape) done.old.items done.new.items many) }
        ensures carries { Carries self.old self.new done.old.items done.new.items }
        ensures within { 1 ≤ self.old.cap → IsWithin self.old → IsWithin self.new }
        ensures rest { SameRest self.old self.new }
        ensures ones { OnlyOnes self.old self.new }
    {
        self.nodes.reserve(1)?;
        done.reserve(1)?;
        let parts = done.split_off(done.len() - many)?;
        let key = self.nodes.insert_reserved(Node {
            count: 1,
            next: None,
            shape,
            parts,
        });
        done.push_reserved(Part::Key(key));
        Ok(())
    }
}

// the value right inside another with this index
fn kid<'v>(value: &'v Value, place: usize) -> Option<&'v Value>
    ensures { MatchOption result (length_of (kids (seen value.now)) ≤ place) (λ kid. (place < usize.MAX) × IsKid (seen value.now) place (seen kid.now)) }
{
    match value {
        Value::Array(items) => item_kid(items.as_slice(), place),
        Value::Record(fields) => field_kid(fields.as_slice(), place),
        _ => None,
    }
}

// the item with this index
fn item_kid<'v>(items: &'v [Value], place: usize) -> Option<&'v Value>
    ensures { MatchOption result (length items.now ≤ place) (λ kid. (place < usize.MAX) × (place < length items.now) × (nth (seen_items items.now) place ≡ seen kid.now)) }
{
    if place < items.len() {
        Some(&items[place])
    } else {
        None
    }
}

// the value of the field with this index
fn field_kid<'v>(fields: &'v [(Name, Value)], place: usize) -> Option<&'v Value>
    ensures { MatchOption result (length fields.now ≤ place) (λ kid. (place < usize.MAX) × (place < length fields.now) × (nth (data_in (seen_fields fields.now)) place ≡ seen kid.now)) }
{
    if place < fields.len() {
        Some(&fields[place].1)
    } else {
        None
    }
}
