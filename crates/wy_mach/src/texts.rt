//! Texts: the codes of arrays.
ghost use Rattle.std.specs.Prelude.{◌≡◌, ◌≤◌, ◌<◌, ◌+◌, ◌∷◌, [], ℕ, List, None, Some, MatchOption, IsTrue, ◌↔◌, length, take, drop, slice_index_or};
ghost use Rattle.wy_value.specs.Datum.{Datum};
ghost use Rattle.wy_heap.specs.Nodes.{map_of};
ghost use Rattle.wy_heap.specs.Meaning.{Means};
ghost use Rattle.wy_heap.specs.Slots.{child, item_at};
ghost use Rattle.wy_heap.specs.Standing.{AreHeld};
ghost use Rattle.wy_mach.specs.Looking.{length_in, IsItem};
ghost use Rattle.wy_mach.specs.Texts.{ascii_of, kind_code, code_in, text_in, IsText, HasText};

use wy_heap::{Heap, Kind, Place, Slot};

// how many codes the array has that a place holds, where it holds an array of codes
pub(crate) fn text_length(heap: &Heap, place: &Place) -> Option<u64>
    requires held { AreHeld heap.now (place.now ∷ []) }
    ensures value { MatchOption result ((d : Datum) → Means (map_of heap.now) d place.now → text_in d ≡ None) (λ n. HasText heap.now place.now n) }
{
    let Some(count) = items(heap, place) else {
        return None;
    };
    for i in 0..count {
        let Some(_) = code(heap, place, i) else {
            return None;
        };
    }
    Some(count)
}

// how many items the array has that a place holds, where it holds one
fn items(heap: &Heap, place: &Place) -> Option<u64>
    requires held { AreHeld heap.now (place.now ∷ []) }
    ensures value { (d : Datum) → Means (map_of heap.now) d place.now → result ≡ length_in (Some d) }
{
    if is_array(heap.kind(place)) {
        Some(heap.len(place))
    } else {
        None
    }
}

fn is_array(kind: Kind) -> bool
    ensures { IsTrue result ↔ (kind ≡ Kind.Array) }
{
    match kind {
        Kind::Array => true,
        _ => false,
    }
}

// the item of an array as a code
fn code(heap: &Heap, place: &Place, index: u64) -> Option<u8>
    requires held { AreHeld heap.now (place.now ∷ []) }
    requires there { IsItem heap.now place.now index }
    ensures value { (d : Datum) → Means (map_of heap.now) d place.now → result ≡ code_in (child d (item_at index)) }
{
    code_of(heap.kind_at(place, Slot::Item(index)))
}

// what a place or a slot holds, as a code
fn code_of(kind: Kind) -> Option<u8>
    ensures { result ≡ kind_code kind }
{
    match kind {
        Kind::Int(number) => ascii(number),
        _ => None,
    }
}

// the number as a code
fn ascii(number: i128) -> Option<u8>
    ensures { result ≡ ascii_of number }
{
    if number < 0 {
        return None;
    }
    if number > 127 {
        return None;
    }
    Some(number as u8)
}

// so many codes of a text, from this one on, come to the front of the piece
pub(crate) fn gather(heap: &Heap, place: &Place, start: u64, piece: &mut [u8], many: usize)
    requires held { AreHeld heap.now (place.now ∷ []) }
    requires there { (n : ℕ) × HasText heap.now place.now n × (start + many ≤ n) }
    requires fits { start + many ≤ 18446744073709551615 }
    requires room { many ≤ length piece.old }
    ensures value { (bytes : List ℕ) → IsText heap.now place.now bytes → take many piece.new ≡ take many (drop start bytes) }
{
    for k in 0..many {
        piece[k] = code_at(heap, place, start + k as u64);
    }
}

// the code with this index of a text
fn code_at(heap: &Heap, place: &Place, index: u64) -> u8
    requires held { AreHeld heap.now (place.now ∷ []) }
    requires there { (n : ℕ) × HasText heap.now place.now n × (index < n) }
    ensures value { (bytes : List ℕ) → IsText heap.now place.now bytes → result ≡ slice_index_or bytes index 0 }
{
    match code(heap, place, index) {
        Some(code) => code,
        None => unreachable!(),
    }
}
