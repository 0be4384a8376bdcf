//! One register: what is put in, and what is taken out.
ghost use Rattle.std.specs.Prelude.{◌≡◌, ◌<◌, ◌∷◌, [], ◌++◌, ℕ, List, length, slice_set, slice_index_or};
ghost use Rattle.wy_heap.specs.declared.part.Part.{Part};
ghost use Rattle.wy_heap.specs.declared.part.Part.TheVariants.{Null};
ghost use Rattle.wy_heap.specs.Nodes.{map_of};
ghost use Rattle.wy_heap.specs.Standing.{Stands, Acts, SameTable};
ghost use Rattle.wy_heap.specs.Changing.{Lasts};
ghost use Rattle.wy_mach.specs.Showing.{IsBeside, Puts};

use std::mem;
use wy_heap::{Heap, Kind, Place};

/// Puts a place into a register, and releases what was there. Where there is no register with this
/// number the place itself is released. It takes no memory, and constant time beside what is freed.
pub fn put(heap: &mut Heap, registers: &mut [Place], number: u32, place: Place)
    requires held { IsBeside heap.old place registers.old }
    ensures registers { registers.new ≡ slice_set registers.old number place }
    ensures acts { Puts heap.old heap.new registers.old place registers.new }
    ensures lasts { Lasts (map_of heap.old) (map_of heap.new) }
    ensures kept { SameTable heap.old heap.new }
    ensures copies { heap.new.copies ≡ heap.old.copies }
{
    let index = number as usize;
    if index < registers.len() {
        let old = mem::replace(&mut registers[index], place);
        heap.release(old);
    } else {
        heap.release(place);
    }
}

/// Takes what a register holds, and leaves null there. It takes no memory, and constant time.
pub fn take(registers: &mut [Place], number: u32) -> Place
    requires there { number < length registers.old }
    ensures value { result ≡ slice_index_or registers.old number Null }
    ensures registers { registers.new ≡ slice_set registers.old number Null }
{
    mem::replace(&mut registers[number as usize], Place::scalar(Kind::Null))
}
