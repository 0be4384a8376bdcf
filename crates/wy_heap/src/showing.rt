//! The text of what a place stands for.
//!
//! It is written along a list of nodes with a place in each, so it takes no stack, and besides the text
//! as much memory as the nodes nest.
ghost use Rattle.std.specs.Prelude.{◌≡◌, ◌≤◌, ◌<◌, ◌+◌, ◌*◌, ◌∷◌, [], ◌++◌, IfOk, OnOk, length, slice_get, slice_index_or};
ghost use Rattle.std.specs.Fmt.{signed_decimal};
ghost use Rattle.wy_value.specs.Datum.{Datum};
ghost use Rattle.wy_value.specs.Shapes.{IsShapes, named};
ghost use Rattle.wy_value.specs.Shown.{shown};
ghost use Rattle.wy_heap.specs.declared.part.Part.TheVariants.{Key};
ghost use Rattle.wy_heap.specs.Nodes.{map_of, at, form_of, form_in, parts_in};
ghost use Rattle.wy_heap.specs.Meaning.{Means, IsMeant};
ghost use Rattle.wy_heap.specs.Standing.{AreHeld};
ghost use Rattle.wy_heap.specs.Weighing.{weight};
ghost use Rattle.wy_heap.specs.Showing.{opening, closing, separator, lead_of, IsLeft, IsText, rest_work, GoesOn};

use crate::heap::Heap;
use crate::node::Shape;
use crate::part::{Part, Place};
use std::alloc::{AllocError, Global};
use wy_items::NoMemory;

impl Heap {
    /// The text of what a place stands for, as `[1, {a: true, b: null}]`, in time linear in the text.
    pub fn text(&self, p: &Place) -> Result<Vec<u8>, NoMemory>
        requires held { AreHeld self.now (p.now ∷ []) }
        ensures value { IfOk result (λ text. (d : Datum) → Means (map_of self.now) d p.now → text.items ≡ shown d) }
    {
        match self.text_of(p.part()) {
            Ok(text) => Ok(text),
            Err(_) => Err(NoMemory),
        }
    }

    // the text of a part's datum
    fn text_of(&self, part: Part) -> Result<Vec<u8>, AllocError>
        requires meant { IsMeant (map_of self.now) part }
        requires table { IsShapes self.now.shapes }
        ensures value { IfOk result (λ text. (d : Datum) → Means (map_of self.now) d part → text.items ≡ shown d) }
    {
        let mut text = Vec::new(self.alloc);
        let mut todo: Vec<(usize, usize)> = Vec::new(self.alloc);
        self.begin(part, &mut todo, &mut text)?;
        'jobs: while let Some((key, place)) = todo.pop() {
            self.go_on(key, place, &mut todo, &mut text)?;
        }
        Ok(text)
    }

    // writes the part of a node at a place, and leaves those behind it
    fn go_on(
        &self,
        key: usize,
        place: usize,
        todo: &mut Vec<(usize, usize)>,
        text: &mut Vec<u8>,
    ) -> Result<(), AllocError>
        requires meant { IsMeant (map_of self.now) (Key key) }
        requires within { place ≤ length (parts_in (at (map_of self.now) key)) }
        requires table { IsShapes self.now.shapes }
        ensures { OnOk result (GoesOn (map_of self.now) (IsLeft (map_of self.now) (key, place)) (rest_work (map_of self.now) (key, place)) todo.old.items todo.new.items text.old.items text.new.items) }
    {
        let node = &self.nodes[key];
        if place >= node.parts.len() {
            text.push(closing_of(node.shape))?;
            return Ok(());
        }
        self.write_lead(key, place, text)?;
        todo.push((key, place + 1))?;
        let part = self.part_in(key, place);
        self.begin(part, todo, text)?;
        Ok(())
    }

    // writes a scalar, or the bracket before a node's parts, which it leaves
    fn begin(
        &self,
        part: Part,
        todo: &mut Vec<(usize, usize)>,
        text: &mut Vec<u8>,
    ) -> Result<(), AllocError>
        requires meant { IsMeant (map_of self.now) part }
        ensures { OnOk result (GoesOn (map_of self.now) (IsText (map_of self.now) part) (2 * weight (map_of self.now) part) todo.old.items todo.new.items text.old.items text.new.items) }
    {
        match part {
            Part::Null => {
                write_bytes(text, b"null")?;
                Ok(())
            }
            Part::Bool(true) => {
                write_bytes(text, b"true")?;
                Ok(())
            }
            Part::Bool(false) => {
                write_bytes(text, b"false")?;
                Ok(())
            }
            Part::Int(n) => {
                write_number(self.alloc, text, n)?;
                Ok(())
            }
            Part::Key(key) => {
                text.push(opening_of(self.nodes[key].shape))?;
                todo.push((key, 0))?;
                Ok(())
            }
        }
    }

    // writes what stands before a part
    fn write_lead(&self, key: usize, place: usize, text: &mut Vec<u8>) -> Result<(), AllocError>
        requires meant { IsMeant (map_of self.now) (Key key) }
        requires within { place < length (parts_in (at (map_of self.now) key)) }
        requires table { IsShapes self.now.shapes }
        ensures { OnOk result (text.new.items ≡ text.old.items ++ lead_of (form_in (at (map_of self.now) key)) place) }
    {
        write_separator(place, text)?;
        match self.nodes[key].shape {
            Shape::Array => Ok(()),
            Shape::Record(shape) => self.write_name(self.fields_of(shape), place, text),
        }
    }

    // writes the name of a field with its colon
    fn write_name(&self, list: &[u32], place: usize, text: &mut Vec<u8>) -> Result<(), AllocError>
        requires within { place < length list.now }
        requires named { slice_index_or list.now place 0 < length self.now.shapes.names }
        ensures { OnOk result (text.new.items ≡ text.old.items ++ (slice_index_or (named self.now.shapes.names list.now) place [] ++ 58 ∷ 32 ∷ [])) }
    {
        let number = list[place] as usize;
        write_bytes(text, self.shapes.names.as_slice()[number].as_bytes())?;
        write_bytes(text, b": ")?;
        Ok(())
    }
}

fn opening_of(shape: Shape) -> u8
    ensures { result ≡ opening shape }
{
    match shape {
        Shape::Array => b'[',
        Shape::Record(_) => b'{',
    }
}

fn closing_of(shape: Shape) -> u8
    ensures { result ≡ closing shape }
{
    match shape {
        Shape::Array => b']',
        Shape::Record(_) => b'}',
    }
}

// writes what stands between two parts
fn write_separator(place: usize, text: &mut Vec<u8>) -> Result<(), AllocError>
    ensures { OnOk result (text.new.items ≡ text.old.items ++ separator place) }
{
    if place == 0 {
        Ok(())
    } else {
        write_bytes(text, b", ")
    }
}

fn write_number(alloc: Global, text: &mut Vec<u8>, number: i128) -> Result<(), AllocError>
    ensures { OnOk result (text.new.items ≡ text.old.items ++ signed_decimal number) }
{
    let digits = format!(in alloc; "{number}")?;
    write_bytes(text, digits.as_bytes())
}

fn write_bytes(text: &mut Vec<u8>, bytes: &[u8]) -> Result<(), AllocError>
    ensures { OnOk result (text.new.items ≡ text.old.items ++ bytes.now) }
{
    text.extend_from_slice(bytes)?;
    Ok(())
}
