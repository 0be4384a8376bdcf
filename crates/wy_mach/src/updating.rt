//! The instruction `Put`.
ghost use Rattle.std.specs.Prelude.{◌≡◌, ◌≤◌, ◌<◌, length, slice_set, vec_capacity, ◌∷◌, [], OnOk, IfErr};
ghost use Rattle.wy_value.specs.declared.shapes.Shapes.{Shapes};
ghost use Rattle.wy_heap.specs.declared.part.Part.TheVariants.{Null};
ghost use Rattle.wy_heap.specs.Nodes.{map_of};
ghost use Rattle.wy_heap.specs.Extending.{Extends};
ghost use Rattle.wy_heap.specs.Slots.{steps_of, IsPath};
ghost use Rattle.wy_heap.specs.Standing.{SameTable};
ghost use Rattle.wy_code.specs.declared.instructions.Instr.{Instr};
ghost use Rattle.wy_code_spec.specs.step.Step.{effect};
ghost use Rattle.wy_mach.specs.Showing.{WentOn, IsStop, Turns, AreRegisters};
ghost use Rattle.wy_mach.specs.Taking.{AreTaken, TakenTurns, GivesMade};
ghost use Rattle.wy_mach.specs.Paths.{written_made};
ghost use Rattle.wy_mach.specs.Sharing.{part_in};
ghost use Rattle.wy_heap.specs.Putting.{Sole};
ghost use Rattle.wy_mach.specs.Writing.{PutsAlong, WritesPath, IsNotSole};

use crate::paths::slots;
use crate::registers::take;
use crate::stop::Stop;
use wy_code::Slot as Step;
use wy_heap::{Heap, Place, Slot};

/// `Put`: what a register held stands at the end of a path into another one. Stuck comes where a register
/// of the path holds no number from 0 on, or where a part on the path isn't there. Nodes on the path with
/// one holder each are written in place; the others are copied. The path is gathered in `path`, in place
/// of what was there, which takes memory only where it lacks room. At a refusal what was taken is
/// released.
pub fn update(
    heap: &mut Heap,
    registers: &mut [Place],
    whole: u32,
    steps: &[Step],
    from: u32,
    path: &mut Vec<Slot>,
) -> Result<(), Stop>
    requires held { AreRegisters heap.old registers.old }
    ensures turns { Turns heap.old heap.new registers.old registers.new }
    ensures value { OnOk result ((shapes : Shapes) → Extends shapes heap.old.shapes → WentOn (map_of heap.old) (map_of heap.new) registers.old registers.new (effect shapes (Instr.Put whole steps.now from))) }
    ensures stop { IfErr result (λ stop. (shapes : Shapes) → Extends shapes heap.old.shapes → IsStop (map_of heap.old) registers.old (effect shapes (Instr.Put whole steps.now from)) stop) }
    ensures shares { OnOk result (WritesPath heap.old heap.new registers.old registers.new whole steps.now from) }
    ensures memory { IfErr result (λ stop. stop ≡ Stop.NoMemory → length steps.now ≤ vec_capacity path.old → IsNotSole heap.old registers.old whole steps.now from) }
    ensures room { vec_capacity path.old ≤ vec_capacity path.new }
    ensures kept { SameTable heap.old heap.new }
{
    match slots(heap, registers, steps, path) {
        Ok(()) => {}
        Err(stop) => {
            return Err(stop);
        }
    }
    if from as usize >= registers.len() {
        return Err(Stop::Stuck);
    }
    if whole as usize >= registers.len() {
        return Err(Stop::Stuck);
    }
    let item = take(registers, from);
    written(heap, registers, whole, item, path.as_slice())
}

// the item, which was taken, comes to the end of a path into what a register holds, which stays there meanwhile
fn written(
    heap: &mut Heap,
    registers: &mut [Place],
    whole: u32,
    item: Place,
    path: &[Slot],
) -> Result<(), Stop>
    requires held { AreTaken heap.old (item ∷ part_in registers.old whole ∷ []) (slice_set registers.old whole Null) }
    requires there { whole < length registers.old }
    ensures turns { TakenTurns heap.old heap.new (item ∷ part_in registers.old whole ∷ []) (slice_set registers.old whole Null) registers.new }
    ensures value { OnOk result (GivesMade heap.old heap.new (item ∷ part_in registers.old whole ∷ []) (slice_set registers.old whole Null) registers.new whole (written_made (steps_of heap.old.shapes path.now))) }
    ensures stop { IfErr result (λ stop. stop ≡ Stop.Stuck → IsPath heap.old (part_in registers.old whole) path.now → ⊥) }
    ensures shares { OnOk result (PutsAlong heap.old heap.new (slice_set registers.old whole Null) registers.new whole (part_in registers.old whole) item (steps_of heap.old.shapes path.now)) }
    ensures memory { IfErr result (λ stop. stop ≡ Stop.NoMemory → Sole heap.old (part_in registers.old whole) (steps_of heap.old.shapes path.now) → ⊥) }
    ensures kept { SameTable heap.old heap.new }
{
    let index = whole as usize;
    if !heap.has_path(&registers[index], path) {
        heap.release(item);
        return Err(Stop::Stuck);
    }
    match heap.set(&mut registers[index], path, item) {
        Ok(()) => Ok(()),
        Err(item) => {
            heap.release(item);
            Err(Stop::NoMemory)
        }
    }
}
