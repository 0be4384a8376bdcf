//! The instruction `Record`.
ghost use Rattle.std.specs.Prelude.{◌≡◌, ◌∷◌, [], ◌++◌, ℕ, List, OnOk, IfErr, Some, length, slice_get};
ghost use Rattle.wy_value.specs.Shapes.{IsShapes, named};
ghost use Rattle.wy_heap.specs.declared.part.Part.{Part};
ghost use Rattle.wy_heap.specs.Nodes.{map_of};
ghost use Rattle.wy_heap.specs.Making.{HasShape};
ghost use Rattle.wy_heap.specs.Extending.{Extends};
ghost use Rattle.wy_heap.specs.Standing.{SameTable};
ghost use Rattle.wy_code.specs.declared.instructions.Instr.{Instr};
ghost use Rattle.wy_code_spec.specs.step.Step.{effect};
ghost use Rattle.wy_mach.specs.Showing.{WentOn, IsStop, Turns, AreRegisters};
ghost use Rattle.wy_mach.specs.Taking.{taken, emptied, AreTaken, TakenTurns, GivesMade};
ghost use Rattle.wy_mach.specs.Sharing.{PutsNew, shape_form};
ghost use Rattle.wy_mach.specs.Records.{record_made};

use crate::making::{release_all, take_all};
use crate::registers::put;
use crate::stop::Stop;
use std::alloc::Global;
use wy_heap::{Heap, Place};
use wy_value::Shapes;

/// `Record`: a record of what registers held comes into a register; it has the shape with this number in
/// the code's table, which the heap's extends. Stuck comes where there is no such shape, or as many fields
/// as values. At want of memory what was taken is released.
#[inline(never)]
pub fn record(
    alloc: Global,
    shapes: &Shapes,
    heap: &mut Heap,
    registers: &mut [Place],
    to: u32,
    shape: u32,
    numbers: &[u32],
) -> Result<(), Stop>
    requires held { AreRegisters heap.old registers.old }
    requires table { IsShapes shapes.now }
    requires extends { Extends shapes.now heap.old.shapes }
    ensures turns { Turns heap.old heap.new registers.old registers.new }
    ensures value { OnOk result (WentOn (map_of heap.old) (map_of heap.new) registers.old registers.new (effect shapes.now (Instr.Record to shape numbers.now))) }
    ensures stop { IfErr result (λ stop. IsStop (map_of heap.old) registers.old (effect shapes.now (Instr.Record to shape numbers.now)) stop) }
    ensures shares { OnOk result (PutsNew heap.old heap.new (emptied registers.old numbers.now) registers.new to (shape_form heap.old.shapes shape) (taken registers.old numbers.now)) }
    ensures kept { SameTable heap.old heap.new }
    ensures copies { heap.new.copies ≡ heap.old.copies }
{
    let Some(list) = shapes.lists.get(shape as usize) else {
        return Err(Stop::Stuck);
    };
    if list.len() != numbers.len() {
        return Err(Stop::Stuck);
    }
    match take_all(alloc, registers, numbers) {
        Ok(items) => record_of(heap, registers, to, shape, items),
        Err(stop) => Err(stop),
    }
}

// a record of these, which were taken from the registers, comes into one of them
fn record_of(
    heap: &mut Heap,
    registers: &mut [Place],
    to: u32,
    shape: u32,
    items: Vec<Place>,
) -> Result<(), Stop>
    requires held { AreTaken heap.old items.items registers.old }
    requires shape { HasShape heap.old.shapes shape (length items.items) }
    ensures turns { TakenTurns heap.old heap.new items.items registers.old registers.new }
    ensures value { OnOk result ((list : List ℕ) → slice_get heap.old.shapes.lists shape ≡ Some list → GivesMade heap.old heap.new items.items registers.old registers.new to (record_made (named heap.old.shapes.names list))) }
    ensures shares { OnOk result (PutsNew heap.old heap.new registers.old registers.new to (shape_form heap.old.shapes shape) items.items) }
    ensures no_memory { IfErr result (λ stop. stop ≡ Stop.NoMemory) }
    ensures kept { SameTable heap.old heap.new }
    ensures copies { heap.new.copies ≡ heap.old.copies }
{
    match heap.record(shape, items) {
        Ok(made) => {
            put(heap, registers, to, made);
            Ok(())
        }
        Err(items) => {
            release_all(heap, items);
            Err(Stop::NoMemory)
        }
    }
}
