//! The instruction `Equal`.
ghost use Rattle.std.specs.Prelude.{◌≡◌, ◌∷◌, [], ◌++◌, ℕ, List, OnOk, IfOk, IfErr};
ghost use Rattle.wy_value.specs.declared.shapes.Shapes.{Shapes};
ghost use Rattle.wy_heap.specs.declared.part.Part.{Part};
ghost use Rattle.wy_heap.specs.Nodes.{map_of};
ghost use Rattle.wy_heap.specs.Standing.{SameTable};
ghost use Rattle.wy_code.specs.declared.instructions.Instr.{Instr};
ghost use Rattle.wy_code_spec.specs.step.Step.{effect};
ghost use Rattle.wy_mach.specs.Showing.{WentOn, IsStop, Turns, AreRegisters};
ghost use Rattle.wy_mach.specs.Sharing.{PutsScalar};
ghost use Rattle.wy_mach.specs.Operands.{TellsSame, ComparesNone};

use crate::registers::put;
use crate::stop::Stop;
use wy_heap::{Heap, Kind, Place};

/// `Equal`: whether two registers hold the same, compared by structure, comes into a register. It may
/// take memory as two nodes nest.
#[inline(never)]
pub fn equal(
    heap: &mut Heap,
    registers: &mut [Place],
    to: u32,
    left: u32,
    right: u32,
) -> Result<(), Stop>
    requires held { AreRegisters heap.old registers.old }
    ensures turns { Turns heap.old heap.new registers.old registers.new }
    ensures value { OnOk result ((shapes : Shapes) → WentOn (map_of heap.old) (map_of heap.new) registers.old registers.new (effect shapes (Instr.Equal to left right))) }
    ensures stop { IfErr result (λ stop. (shapes : Shapes) → IsStop (map_of heap.old) registers.old (effect shapes (Instr.Equal to left right)) stop) }
    ensures shares { OnOk result (PutsScalar heap.old heap.new registers.old registers.new to) }
    ensures kept { SameTable heap.old heap.new }
    ensures copies { heap.new.copies ≡ heap.old.copies }
{
    let same = are_equal(heap, registers, left, right)?;
    put(heap, registers, to, Place::scalar(Kind::Bool(same)));
    Ok(())
}

// whether two registers hold the same
fn are_equal(heap: &Heap, registers: &[Place], left: u32, right: u32) -> Result<bool, Stop>
    requires held { AreRegisters heap.now registers.now }
    ensures value { IfOk result (TellsSame heap.now registers.now left right) }
    ensures stop { IfErr result (ComparesNone heap.now registers.now left right) }
{
    let first = left as usize;
    let second = right as usize;
    if first >= registers.len() {
        return Err(Stop::Stuck);
    }
    if second >= registers.len() {
        return Err(Stop::Stuck);
    }
    if first == second {
        return Ok(true);
    }
    let same = heap.equal(&registers[first], &registers[second])?;
    Ok(same)
}
