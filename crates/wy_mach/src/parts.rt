//! The instructions that put a part of what a register holds into another one: `Get` and `Field`.
ghost use Rattle.std.specs.Prelude.{◌≡◌, ◌∷◌, [], ◌++◌, ℕ, List, OnOk, OnErr, IfOk, IfErr};
ghost use Rattle.wy_value.specs.Datum.{Datum};
ghost use Rattle.wy_value.specs.declared.shapes.Shapes.{Shapes};
ghost use Rattle.wy_heap.specs.declared.part.Part.{Part};
ghost use Rattle.wy_heap.specs.Nodes.{map_of};
ghost use Rattle.wy_heap.specs.Meaning.{Means};
ghost use Rattle.wy_heap.specs.Extending.{Extends};
ghost use Rattle.wy_heap.specs.Parts.{IsBelow};
ghost use Rattle.wy_heap.specs.Slots.{child, step_of, part_at, IsSlot};
ghost use Rattle.wy_heap.specs.Standing.{Stands, AreHeld, Acts, SameTable, IsAsBefore};
ghost use Rattle.wy_heap.specs.Changing.{More};
ghost use Rattle.wy_heap.specs.Copying.{CopiesAsMany};
ghost use Rattle.wy_code.specs.declared.instructions.Instr.{Instr};
ghost use Rattle.wy_code_spec.specs.step.Step.{effect};
ghost use Rattle.wy_mach.specs.Showing.{WentOn, IsStop, Turns, AreRegisters};
ghost use Rattle.wy_mach.specs.Sharing.{PutsSecond, CountsBeside, part_in};
ghost use Rattle.wy_mach.specs.Parts.{GivesPart, LacksPart};

use crate::registers::put;
use crate::stop::Stop;
use wy_heap::{Heap, Place, Slot};

/// `Field`: the field of a record comes into a register too. Stuck comes where there is no record with such
/// a field. It takes memory only where the field has as many holders as the heap's cap allows, and then
/// counts as many copies as it makes nodes.
#[inline(never)]
pub fn field(
    heap: &mut Heap,
    registers: &mut [Place],
    to: u32,
    from: u32,
    name: u32,
) -> Result<(), Stop>
    requires held { AreRegisters heap.old registers.old }
    ensures turns { Turns heap.old heap.new registers.old registers.new }
    ensures value { OnOk result ((shapes : Shapes) → Extends shapes heap.old.shapes → WentOn (map_of heap.old) (map_of heap.new) registers.old registers.new (effect shapes (Instr.Field to from name))) }
    ensures stop { IfErr result (λ stop. (shapes : Shapes) → Extends shapes heap.old.shapes → IsStop (map_of heap.old) registers.old (effect shapes (Instr.Field to from name)) stop) }
    ensures shares { OnOk result (PutsSecond heap.old heap.new registers.old registers.new to (part_at (map_of heap.old) (part_in registers.old from) (step_of heap.old.shapes (Slot.Field name)))) }
    ensures counts { OnOk result (CountsBeside 0 heap.old heap.new registers.old to) }
    ensures memory { IfErr result (λ stop. stop ≡ Stop.NoMemory → IsBelow heap.old heap.old.cap (part_at (map_of heap.old) (part_in registers.old from) (step_of heap.old.shapes (Slot.Field name))) → ⊥) }
    ensures kept { SameTable heap.old heap.new }
{
    match part(heap, registers, to, from, Slot::Field(name)) {
        Ok(()) => Ok(()),
        Err(stop) => Err(stop),
    }
}

// what is in a slot of what a register holds comes into another one too
fn part(
    heap: &mut Heap,
    registers: &mut [Place],
    to: u32,
    from: u32,
    slot: Slot,
) -> Result<(), Stop>
    requires held { AreRegisters heap.old registers.old }
    ensures turns { Turns heap.old heap.new registers.old registers.new }
    ensures value { OnOk result (GivesPart heap.old heap.new registers.old registers.new to from (step_of heap.old.shapes slot)) }
    ensures stop { IfErr result (LacksPart heap.old registers.old from (step_of heap.old.shapes slot)) }
    ensures shares { OnOk result (PutsSecond heap.old heap.new registers.old registers.new to (part_at (map_of heap.old) (part_in registers.old from) (step_of heap.old.shapes slot))) }
    ensures counts { OnOk result (CountsBeside 0 heap.old heap.new registers.old to) }
    ensures memory { IfErr result (λ stop. stop ≡ Stop.NoMemory → IsBelow heap.old heap.old.cap (part_at (map_of heap.old) (part_in registers.old from) (step_of heap.old.shapes slot)) → ⊥) }
    ensures kept { SameTable heap.old heap.new }
{
    let index = from as usize;
    if index >= registers.len() {
        return Err(Stop::Stuck);
    }
    match second(heap, &registers[index], slot) {
        Ok(made) => {
            put(heap, registers, to, made);
            Ok(())
        }
        Err(stop) => Err(stop),
    }
}

// a second hold on what is in a slot of a place
fn second(heap: &mut Heap, place: &Place, slot: Slot) -> Result<Place, Stop>
    requires held { AreHeld heap.old (place.now ∷ []) }
    ensures acts { IfOk result (λ made. (others : List Part) → Stands heap.old (place.now ∷ others) → Acts heap.old heap.new (made ∷ []) (place.now ∷ others)) }
    ensures there { OnOk result (IsSlot heap.old place.now slot) }
    ensures value { IfOk result (λ made. (d : Datum) → Means (map_of heap.old) d place.now → Means (map_of heap.new) (child d (step_of heap.old.shapes slot)) made) }
    ensures stop { IfErr result (λ stop. stop ≡ Stop.Stuck → IsSlot heap.old place.now slot → ⊥) }
    ensures below { IfOk result (λ made. let p = part_at (map_of heap.old) place.now (step_of heap.old.shapes slot) in IsBelow heap.old heap.old.cap p → (made ≡ p) × (map_of heap.new ≡ map_of heap.old) × (heap.new.copies ≡ heap.old.copies)) }
    ensures stays { OnOk result (More (map_of heap.old) (map_of heap.new)) }
    ensures copies { OnOk result (CopiesAsMany heap.old heap.new) }
    ensures memory { IfErr result (λ stop. stop ≡ Stop.NoMemory → IsBelow heap.old heap.old.cap (part_at (map_of heap.old) place.now (step_of heap.old.shapes slot)) → ⊥) }
    ensures no_memory { OnErr result (IsAsBefore heap.old heap.new) }
    ensures kept { SameTable heap.old heap.new }
{
    if !heap.has_slot(place, slot) {
        return Err(Stop::Stuck);
    }
    match heap.get(place, slot) {
        Ok(made) => Ok(made),
        Err(_) => Err(Stop::NoMemory),
    }
}
