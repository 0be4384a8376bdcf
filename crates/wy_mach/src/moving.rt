//! The instructions that move what registers hold: `Const`, `Move`, `Share` and `Clear`.
ghost use Rattle.std.specs.Prelude.{◌≡◌, ◌⊎◌, ◌<◌, ◌∷◌, [], ◌++◌, ℕ, List, OnOk, OnErr, IfErr, MatchOption, length, slice_set, slice_index_or};
ghost use Rattle.wy_value.specs.declared.shapes.Shapes.{Shapes};
ghost use Rattle.wy_heap.specs.declared.part.Part.{Part};
ghost use Rattle.wy_heap.specs.declared.part.Part.TheVariants.{Null};
ghost use Rattle.wy_heap.specs.Nodes.{map_of};
ghost use Rattle.wy_heap.specs.Standing.{Stands, Acts, SameTable};
ghost use Rattle.wy_heap.specs.Parts.{IsScalar, IsBelow, scalar_part};
ghost use Rattle.wy_heap.specs.Changing.{Lasts};
ghost use Rattle.wy_code.specs.declared.instructions.Instr.{Instr};
ghost use Rattle.wy_code_spec.specs.step.Step.{effect};
ghost use Rattle.wy_mach.specs.Showing.{WentOn, HasNone, IsStop, Turns, AreRegisters, IsNoInt, scalar_kind};
ghost use Rattle.wy_mach.specs.Taking.{emptied};
ghost use Rattle.wy_mach.specs.Sharing.{PutsIn, PutsSecond, CountsBeside, part_in};

use crate::registers::{put, take};
use crate::stop::{Stop, Stuck};
use wy_code::Scalar;
use wy_heap::{Heap, Kind, Place};
use wy_value::{INT_MAX, INT_MIN};

/// `Const`: puts a constant into a register. Stuck comes only at a number that is no `int`. It takes no
/// memory.
pub fn load(
    heap: &mut Heap,
    registers: &mut [Place],
    to: u32,
    constant: Scalar,
) -> Result<(), Stuck>
    requires held { AreRegisters heap.old registers.old }
    ensures turns { Turns heap.old heap.new registers.old registers.new }
    ensures value { OnOk result ((shapes : Shapes) → WentOn (map_of heap.old) (map_of heap.new) registers.old registers.new (effect shapes (Instr.Const to constant))) }
    ensures stuck { OnErr result (IsNoInt constant) }
    ensures shares { OnOk result (PutsIn heap.old heap.new registers.old registers.new to (scalar_part (scalar_kind constant))) }
    ensures kept { SameTable heap.old heap.new }
    ensures copies { heap.new.copies ≡ heap.old.copies }
{
    let Some(kind) = scalar_kind(constant) else {
        return Err(Stuck);
    };
    put(heap, registers, to, Place::scalar(kind));
    Ok(())
}

// the kind of a constant, unless that is a number that is no `int`
fn scalar_kind(constant: Scalar) -> Option<Kind>
    ensures { MatchOption result (IsNoInt constant) (λ k. IsScalar k × (k ≡ scalar_kind constant)) }
{
    match constant {
        Scalar::Null => Some(Kind::Null),
        Scalar::Bool(b) => Some(Kind::Bool(b)),
        Scalar::Int(n) => {
            if n < INT_MIN || n > INT_MAX {
                None
            } else {
                Some(Kind::Int(n))
            }
        }
    }
}

/// `Move`: moves what is in a register into another one. It takes no memory.
pub fn move_to(heap: &mut Heap, registers: &mut [Place], to: u32, from: u32) -> Result<(), Stuck>
    requires held { AreRegisters heap.old registers.old }
    ensures turns { Turns heap.old heap.new registers.old registers.new }
    ensures value { OnOk result ((shapes : Shapes) → WentOn (map_of heap.old) (map_of heap.new) registers.old registers.new (effect shapes (Instr.Move to from))) }
    ensures stuck { OnErr result ((shapes : Shapes) → HasNone (map_of heap.old) registers.old (effect shapes (Instr.Move to from))) }
    ensures shares { OnOk result (PutsIn heap.old heap.new (slice_set registers.old from Null) registers.new to (part_in registers.old from)) }
    ensures kept { SameTable heap.old heap.new }
    ensures copies { heap.new.copies ≡ heap.old.copies }
{
    if from as usize >= registers.len() {
        return Err(Stuck);
    }
    let place = take(registers, from);
    put(heap, registers, to, place);
    Ok(())
}

/// `Share`: puts what is in a register into another one too. It takes memory only where what it shares
/// has as many holders as the heap's cap allows, and then counts as many copies as it makes nodes.
pub fn share(heap: &mut Heap, registers: &mut [Place], to: u32, from: u32) -> Result<(), Stop>
    requires held { AreRegisters heap.old registers.old }
    ensures turns { Turns heap.old heap.new registers.old registers.new }
    ensures value { OnOk result ((shapes : Shapes) → WentOn (map_of heap.old) (map_of heap.new) registers.old registers.new (effect shapes (Instr.Share to from))) }
    ensures stop { IfErr result (λ stop. (shapes : Shapes) → IsStop (map_of heap.old) registers.old (effect shapes (Instr.Share to from)) stop) }
    ensures shares { OnOk result (PutsSecond heap.old heap.new registers.old registers.new to (part_in registers.old from)) }
    ensures counts { OnOk result (CountsBeside 0 heap.old heap.new registers.old to) }
    ensures memory { IfErr result (λ stop. stop ≡ Stop.NoMemory → IsBelow heap.old heap.old.cap (part_in registers.old from) → ⊥) }
    ensures kept { SameTable heap.old heap.new }
{
    let index = from as usize;
    if index >= registers.len() {
        return Err(Stop::Stuck);
    }
    let made = heap.share(&registers[index])?;
    put(heap, registers, to, made);
    Ok(())
}

/// `Clear`: releases what is in these registers, and empties them. It takes no memory.
pub fn clear(heap: &mut Heap, registers: &mut [Place], numbers: &[u32])
    requires held { AreRegisters heap.old registers.old }
    ensures turns { Turns heap.old heap.new registers.old registers.new }
    ensures value { (shapes : Shapes) → WentOn (map_of heap.old) (map_of heap.new) registers.old registers.new (effect shapes (Instr.Clear numbers.now)) }
    ensures shares { registers.new ≡ emptied registers.old numbers.now }
    ensures lasts { Lasts (map_of heap.old) (map_of heap.new) }
    ensures kept { SameTable heap.old heap.new }
    ensures copies { heap.new.copies ≡ heap.old.copies }
{
    for number in numbers {
        put(heap, registers, *number, Place::scalar(Kind::Null));
    }
}
