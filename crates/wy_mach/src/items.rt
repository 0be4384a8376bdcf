//! The instruction `Get`.
ghost use Rattle.std.specs.Prelude.{◌≡◌, ◌≤◌, ◌<◌, ◌∷◌, [], ◌++◌, ℕ, pos, List, Some, OnOk, OnErr, IfOk, IfErr, MatchOption};
ghost use Rattle.wy_value.specs.Datum.{Datum};
ghost use Rattle.wy_value.specs.declared.shapes.Shapes.{Shapes};
ghost use Rattle.wy_heap.specs.declared.part.Part.{Part};
ghost use Rattle.wy_heap.specs.Nodes.{map_of};
ghost use Rattle.wy_heap.specs.Meaning.{Means};
ghost use Rattle.wy_heap.specs.Parts.{IsBelow};
ghost use Rattle.wy_heap.specs.Slots.{child, item_at, part_at};
ghost use Rattle.wy_heap.specs.Standing.{Stands, AreHeld, Acts, SameTable, IsAsBefore};
ghost use Rattle.wy_heap.specs.Changing.{More};
ghost use Rattle.wy_heap.specs.Copying.{CopiesAsMany};
ghost use Rattle.wy_code.specs.declared.instructions.Instr.{Instr};
ghost use Rattle.wy_code_spec.specs.step.Step.{effect};
ghost use Rattle.wy_sem.specs.Expressions.{Store, slot};
ghost use Rattle.wy_mach.specs.Showing.{Shows, WentOn, IsStop, Turns, AreRegisters};
ghost use Rattle.wy_mach.specs.Sharing.{PutsSecond, CountsBeside, part_in};
ghost use Rattle.wy_mach.specs.Looking.{IsItem};

use crate::looking::items;
use crate::operands::number;
use crate::registers::put;
use crate::stop::Stop;
use wy_heap::{Heap, Place, Slot};

/// `Get`: the item of an array comes into a register too. Stuck comes where there is no array, or none of
/// its items has the index. It takes memory only where the item has as many holders as the heap's cap
/// allows, and constant time below that. At the cap it counts as many copies as it makes nodes.
pub fn item(
    heap: &mut Heap,
    registers: &mut [Place],
    to: u32,
    from: u32,
    index: u32,
) -> Result<(), Stop>
    requires held { AreRegisters heap.old registers.old }
    ensures turns { Turns heap.old heap.new registers.old registers.new }
    ensures value { OnOk result ((shapes : Shapes) → WentOn (map_of heap.old) (map_of heap.new) registers.old registers.new (effect shapes (Instr.Get to from index))) }
    ensures stop { IfErr result (λ stop. (shapes : Shapes) → IsStop (map_of heap.old) registers.old (effect shapes (Instr.Get to from index)) stop) }
    ensures shares { OnOk result ((s : Store) (i : ℕ) → Shows (map_of heap.old) s registers.old → slot s index ≡ Some (Datum.Whole (pos i)) → PutsSecond heap.old heap.new registers.old registers.new to (part_at (map_of heap.old) (part_in registers.old from) (item_at i))) }
    ensures counts { OnOk result (CountsBeside 0 heap.old heap.new registers.old to) }
    ensures memory { IfErr result (λ stop. stop ≡ Stop.NoMemory → (s : Store) (i : ℕ) → Shows (map_of heap.old) s registers.old → slot s index ≡ Some (Datum.Whole (pos i)) → IsBelow heap.old heap.old.cap (part_at (map_of heap.old) (part_in registers.old from) (item_at i)) → ⊥) }
    ensures kept { SameTable heap.old heap.new }
{
    let Some(number) = number(heap, registers, index) else {
        return Err(Stop::Stuck);
    };
    let at = from as usize;
    if at >= registers.len() {
        return Err(Stop::Stuck);
    }
    match second_item(heap, &registers[at], number) {
        Ok(made) => {
            put(heap, registers, to, made);
            Ok(())
        }
        Err(stop) => Err(stop),
    }
}

// a second hold on the item of an array with this index
fn second_item(heap: &mut Heap, place: &Place, number: i128) -> Result<Place, Stop>
    requires held { AreHeld heap.old (place.now ∷ []) }
    ensures acts { IfOk result (λ made. (others : List Part) → Stands heap.old (place.now ∷ others) → Acts heap.old heap.new (made ∷ []) (place.now ∷ others)) }
    ensures there { OnOk result ((i : ℕ) × (number ≡ pos i) × IsItem heap.old place.now i) }
    ensures value { IfOk result (λ made. (i : ℕ) (d : Datum) → number ≡ pos i → Means (map_of heap.old) d place.now → Means (map_of heap.new) (child d (item_at i)) made) }
    ensures stop { IfErr result (λ stop. stop ≡ Stop.Stuck → (i : ℕ) → number ≡ pos i → IsItem heap.old place.now i → ⊥) }
    ensures below { IfOk result (λ made. (i : ℕ) → number ≡ pos i → IsBelow heap.old heap.old.cap (part_at (map_of heap.old) place.now (item_at i)) → (made ≡ part_at (map_of heap.old) place.now (item_at i)) × (map_of heap.new ≡ map_of heap.old) × (heap.new.copies ≡ heap.old.copies)) }
    ensures stays { OnOk result (More (map_of heap.old) (map_of heap.new)) }
    ensures copies { OnOk result (CopiesAsMany heap.old heap.new) }
    ensures memory { IfErr result (λ stop. stop ≡ Stop.NoMemory → (i : ℕ) → number ≡ pos i → IsBelow heap.old heap.old.cap (part_at (map_of heap.old) place.now (item_at i)) → ⊥) }
    ensures no_memory { OnErr result (IsAsBefore heap.old heap.new) }
    ensures kept { SameTable heap.old heap.new }
{
    let Some(count) = items(heap, place) else {
        return Err(Stop::Stuck);
    };
    let Some(index) = index_in(number, count) else {
        return Err(Stop::Stuck);
    };
    match heap.get(place, Slot::Item(index)) {
        Ok(made) => Ok(made),
        Err(_) => Err(Stop::NoMemory),
    }
}

// the number as an index below this count
fn index_in(number: i128, count: u64) -> Option<u64>
    ensures { MatchOption result ((i : ℕ) → number ≡ pos i → count ≤ i) (λ i. (number ≡ pos i) × (i < count)) }
{
    if number < 0 || number >= i128::from(count) {
        None
    } else {
        Some(number as u64)
    }
}
