//! The instruction `Fill`.
ghost use Rattle.std.specs.Prelude.{◌≡◌, ◌∷◌, [], ◌++◌, ℕ, pos, List, Some, true, false, OnOk, OnErr, IfErr, MatchOption, slice_set};
ghost use Rattle.wy_value.specs.Datum.{Datum};
ghost use Rattle.wy_value.specs.declared.shapes.Shapes.{Shapes};
ghost use Rattle.wy_heap.specs.declared.part.Part.{Part};
ghost use Rattle.wy_heap.specs.declared.part.Part.TheVariants.{Null};
ghost use Rattle.wy_heap.specs.Nodes.{map_of};
ghost use Rattle.wy_heap.specs.Standing.{SameTable};
ghost use Rattle.wy_code.specs.declared.instructions.Instr.{Instr};
ghost use Rattle.wy_code_spec.specs.step.Step.{effect};
ghost use Rattle.wy_sem.specs.Expressions.{Store, slot};
ghost use Rattle.wy_mach.specs.Showing.{Shows, WentOn, IsStop, Turns, AreRegisters};
ghost use Rattle.wy_mach.specs.Sharing.{PutsFilled, CountsBeside, part_in};
ghost use Rattle.wy_mach.specs.Taking.{AreTaken, TakenTurns, GivesMade};
ghost use Rattle.wy_mach.specs.Filling.{is_length, filled};

use crate::operands::number;
use crate::registers::{put, take};
use crate::stop::Stop;
use wy_heap::{Heap, Place};

/// `Fill`: an array of so many times what a register held comes into a register. Stuck comes where the
/// number is none of a length, from 0 to 2^63 - 1. At the cap it counts as many copies as nodes come beside
/// the array. At want of memory what was taken is released.
#[inline(never)]
pub fn fill(
    heap: &mut Heap,
    registers: &mut [Place],
    to: u32,
    from: u32,
    count: u32,
) -> Result<(), Stop>
    requires held { AreRegisters heap.old registers.old }
    ensures turns { Turns heap.old heap.new registers.old registers.new }
    ensures value { OnOk result ((shapes : Shapes) → WentOn (map_of heap.old) (map_of heap.new) registers.old registers.new (effect shapes (Instr.Fill to from count))) }
    ensures stop { IfErr result (λ stop. (shapes : Shapes) → IsStop (map_of heap.old) registers.old (effect shapes (Instr.Fill to from count)) stop) }
    ensures shares { OnOk result ((s : Store) (n : ℕ) → Shows (map_of heap.old) s registers.old → slot s count ≡ Some (Datum.Whole (pos n)) → PutsFilled heap.old heap.new (slice_set registers.old from Null) registers.new to n (part_in registers.old from)) }
    ensures counts { OnOk result (CountsBeside 1 heap.old heap.new registers.old to) }
    ensures kept { SameTable heap.old heap.new }
{
    let Some(number) = number(heap, registers, count) else {
        return Err(Stop::Stuck);
    };
    let Some(many) = length_of(number) else {
        return Err(Stop::Stuck);
    };
    if from as usize >= registers.len() {
        return Err(Stop::Stuck);
    }
    let item = take(registers, from);
    fill_of(heap, registers, to, item, many)
}

// an array of so many times this, which was taken from the registers, comes into one of them
fn fill_of(
    heap: &mut Heap,
    registers: &mut [Place],
    to: u32,
    item: Place,
    many: u64,
) -> Result<(), Stop>
    requires held { AreTaken heap.old (item ∷ []) registers.old }
    ensures turns { TakenTurns heap.old heap.new (item ∷ []) registers.old registers.new }
    ensures value { OnOk result (GivesMade heap.old heap.new (item ∷ []) registers.old registers.new to (filled many)) }
    ensures shares { OnOk result (PutsFilled heap.old heap.new registers.old registers.new to many item) }
    ensures no_memory { IfErr result (λ stop. stop ≡ Stop.NoMemory) }
    ensures counts { OnOk result (CountsBeside 1 heap.old heap.new registers.old to) }
    ensures kept { SameTable heap.old heap.new }
{
    match heap.fill(item, many) {
        Ok(made) => {
            put(heap, registers, to, made);
            Ok(())
        }
        Err(item) => {
            heap.release(item);
            Err(Stop::NoMemory)
        }
    }
}

// the number as the length of an array
fn length_of(number: i128) -> Option<u64>
    ensures { MatchOption result (is_length number ≡ false) (λ n. (is_length number ≡ true) × (number ≡ pos n)) }
{
    if number < 0 {
        return None;
    }
    if number > 9223372036854775807 {
        return None;
    }
    Some(number as u64)
}
