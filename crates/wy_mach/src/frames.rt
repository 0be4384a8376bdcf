//! Frames of routines.
ghost use Rattle.std.specs.Prelude.{◌≡◌, ◌++◌, [], List};
ghost use Rattle.wy_heap.specs.declared.part.Part.{Part};
ghost use Rattle.wy_heap.specs.Nodes.{map_of};
ghost use Rattle.wy_heap.specs.Standing.{Stands, AreHeld, Acts, SameTable};
ghost use Rattle.wy_heap.specs.Changing.{Lasts};

use crate::making::release_all;
use wy_heap::{Heap, Place};

/// The frame of a routine that runs: its number, the number of its next instruction, and its registers.
/// An empty register is null.
pub struct Frame {
    pub routine: u32,
    pub at: usize,
    pub registers: Vec<Place>,
}

/// A frame that waits for the result of a call, and the register into which that comes.
pub struct Caller {
    pub frame: Frame,
    pub target: u32,
}

/// Releases what the registers of a frame hold. It takes no memory.
pub fn leave(heap: &mut Heap, frame: Frame)
    requires held { AreHeld heap.old frame.registers.items }
    ensures acts { (others : List Part) → Stands heap.old (frame.registers.items ++ others) → Acts heap.old heap.new [] others }
    ensures lasts { Lasts (map_of heap.old) (map_of heap.new) }
    ensures kept { SameTable heap.old heap.new }
    ensures copies { heap.new.copies ≡ heap.old.copies }
{
    let Frame {
        routine: _,
        at: _,
        registers,
    } = frame;
    release_all(heap, registers);
}
