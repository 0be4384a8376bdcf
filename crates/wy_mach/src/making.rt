//! The instructions that make nodes: `Array`, `Record` and `Fill`.
ghost use Rattle.std.specs.Prelude.{◌≡◌, ◌∷◌, [], ◌++◌, ◌<◌, ◌≤◌, ℕ, List, OnOk, OnErr, IfOk, IfErr, IsTrue, false, length};
ghost use Rattle.wy_value.specs.declared.shapes.Shapes.{Shapes};
ghost use Rattle.wy_heap.specs.declared.part.Part.{Part};
ghost use Rattle.wy_heap.specs.Nodes.{map_of, list_form};
ghost use Rattle.wy_heap.specs.Standing.{Stands, AreHeld, Acts, SameTable};
ghost use Rattle.wy_heap.specs.Changing.{Lasts};
ghost use Rattle.wy_code.specs.declared.instructions.Instr.{Instr};
ghost use Rattle.wy_code_spec.specs.step.Step.{effect};
ghost use Rattle.wy_mach.specs.Showing.{WentOn, IsStop, Turns, AreRegisters};
ghost use Rattle.wy_mach.specs.Taking.{taken, emptied, AreWithin, AreTaken, TakenTurns, GivesMade, array_made};
ghost use Rattle.wy_mach.specs.Sharing.{PutsNew};

use crate::registers::{put, take};
use crate::stop::Stop;
use std::alloc::Global;
use wy_heap::{Heap, Place};

/// `Array`: an array of what registers held comes into a register. At want of memory what was taken is
/// released.
#[inline(never)]
pub fn array(
    alloc: Global,
    heap: &mut Heap,
    registers: &mut [Place],
    to: u32,
    numbers: &[u32],
) -> Result<(), Stop>
    requires held { AreRegisters heap.old registers.old }
    ensures turns { Turns heap.old heap.new registers.old registers.new }
    ensures value { OnOk result ((shapes : Shapes) → WentOn (map_of heap.old) (map_of heap.new) registers.old registers.new (effect shapes (Instr.Array to numbers.now))) }
    ensures stop { IfErr result (λ stop. (shapes : Shapes) → IsStop (map_of heap.old) registers.old (effect shapes (Instr.Array to numbers.now)) stop) }
    ensures shares { OnOk result (PutsNew heap.old heap.new (emptied registers.old numbers.now) registers.new to list_form (taken registers.old numbers.now)) }
    ensures kept { SameTable heap.old heap.new }
    ensures copies { heap.new.copies ≡ heap.old.copies }
{
    match take_all(alloc, registers, numbers) {
        Ok(items) => array_of(heap, registers, to, items),
        Err(stop) => Err(stop),
    }
}

// an array of these, which were taken from the registers, comes into one of them
fn array_of(
    heap: &mut Heap,
    registers: &mut [Place],
    to: u32,
    items: Vec<Place>,
) -> Result<(), Stop>
    requires held { AreTaken heap.old items.items registers.old }
    ensures turns { TakenTurns heap.old heap.new items.items registers.old registers.new }
    ensures value { OnOk result (GivesMade heap.old heap.new items.items registers.old registers.new to array_made) }
    ensures shares { OnOk result (PutsNew heap.old heap.new registers.old registers.new to list_form items.items) }
    ensures no_memory { IfErr result (λ stop. stop ≡ Stop.NoMemory) }
    ensures kept { SameTable heap.old heap.new }
    ensures copies { heap.new.copies ≡ heap.old.copies }
{
    match heap.array(items) {
        Ok(made) => {
            put(heap, registers, to, made);
            Ok(())
        }
        Err(items) => {
            release_all(heap, items);
            Err(Stop::NoMemory)
        }
    }
}

/// What registers hold, from left to right; they are empty behind it. At a refusal they are as before.
pub fn take_all(alloc: Global, registers: &mut [Place], numbers: &[u32]) -> Result<Vec<Place>, Stop>
    ensures taken { IfOk result (λ places. (places.items ≡ taken registers.old numbers.now) × (registers.new ≡ emptied registers.old numbers.now)) }
    ensures within { OnOk result (AreWithin (length registers.old) numbers.now) }
    ensures stuck { IfErr result (λ stop. stop ≡ Stop.Stuck → AreWithin (length registers.old) numbers.now → ⊥) }
    ensures back { OnErr result (registers.new ≡ registers.old) }
{
    if !are_within(numbers, registers.len()) {
        return Err(Stop::Stuck);
    }
    let Ok(mut places) = Vec::with_capacity(alloc, numbers.len()) else {
        return Err(Stop::NoMemory);
    };
    for number in numbers {
        places.push_reserved(take(registers, *number));
    }
    Ok(places)
}

// whether all of these are below the limit
fn are_within(numbers: &[u32], limit: usize) -> bool
    ensures yes { IsTrue result → AreWithin limit numbers.now }
    ensures no { result ≡ false → AreWithin limit numbers.now → ⊥ }
{
    for number in numbers {
        if *number as usize >= limit {
            return false;
        }
    }
    true
}

/// Releases all of these. It takes no memory.
pub fn release_all(heap: &mut Heap, mut places: Vec<Place>)
    requires { AreHeld heap.old places.items }
    ensures acts { (others : List Part) → Stands heap.old (places.items ++ others) → Acts heap.old heap.new [] others }
    ensures lasts { Lasts (map_of heap.old) (map_of heap.new) }
    ensures kept { SameTable heap.old heap.new }
    ensures copies { heap.new.copies ≡ heap.old.copies }
{
    'places: while let Some(place) = places.pop() {
        heap.release(place);
    }
    places.destroy_empty();
}
