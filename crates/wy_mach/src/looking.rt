//! The instructions that look at arrays and records: `Len`, `Get`, `Field` and `Kind`.
ghost use Rattle.std.specs.Prelude.{◌≡◌, ◌∷◌, [], ◌++◌, ℕ, List, OnOk, OnErr, IsTrue, ◌↔◌};
ghost use Rattle.wy_value.specs.Datum.{Datum};
ghost use Rattle.wy_value.specs.declared.shapes.Shapes.{Shapes};
ghost use Rattle.wy_heap.specs.declared.part.Part.{Part};
ghost use Rattle.wy_heap.specs.Nodes.{map_of};
ghost use Rattle.wy_heap.specs.Meaning.{Means};
ghost use Rattle.wy_heap.specs.Standing.{AreHeld, SameTable};
ghost use Rattle.wy_code.specs.declared.instructions.Instr.{Instr};
ghost use Rattle.wy_code_spec.specs.step.Step.{effect};
ghost use Rattle.wy_mach.specs.Showing.{WentOn, HasNone, Turns, AreRegisters};
ghost use Rattle.wy_mach.specs.Sharing.{PutsScalar};
ghost use Rattle.wy_mach.specs.Operands.{Reads};
ghost use Rattle.wy_mach.specs.Looking.{length_in};

use crate::registers::put;
use crate::stop::Stuck;
use wy_heap::{Heap, Kind, Place};

/// `Len`: the number of an array's items comes into a register. Stuck comes where there is no array. It
/// takes no memory, and constant time.
#[inline(never)]
pub fn length(heap: &mut Heap, registers: &mut [Place], to: u32, from: u32) -> Result<(), Stuck>
    requires held { AreRegisters heap.old registers.old }
    ensures turns { Turns heap.old heap.new registers.old registers.new }
    ensures value { OnOk result ((shapes : Shapes) → WentOn (map_of heap.old) (map_of heap.new) registers.old registers.new (effect shapes (Instr.Len to from))) }
    ensures stuck { OnErr result ((shapes : Shapes) → HasNone (map_of heap.old) registers.old (effect shapes (Instr.Len to from))) }
    ensures shares { OnOk result (PutsScalar heap.old heap.new registers.old registers.new to) }
    ensures kept { SameTable heap.old heap.new }
    ensures copies { heap.new.copies ≡ heap.old.copies }
{
    let Some(count) = count(heap, registers, from) else {
        return Err(Stuck);
    };
    put(
        heap,
        registers,
        to,
        Place::scalar(Kind::Int(i128::from(count))),
    );
    Ok(())
}

// how many items the array in a register has, where it holds one
fn count(heap: &Heap, registers: &[Place], register: u32) -> Option<u64>
    requires { AreRegisters heap.now registers.now }
    ensures { Reads heap.now registers.now register length_in result }
{
    let index = register as usize;
    if index < registers.len() {
        items(heap, &registers[index])
    } else {
        None
    }
}

// how many items the array has that a place holds, where it holds one
pub(crate) fn items(heap: &Heap, place: &Place) -> Option<u64>
    requires { AreHeld heap.now (place.now ∷ []) }
    ensures { (d : Datum) → Means (map_of heap.now) d place.now → result ≡ length_in (Some d) }
{
    if is_array(heap.kind(place)) {
        Some(heap.len(place))
    } else {
        None
    }
}

fn is_array(kind: Kind) -> bool
    ensures { IsTrue result ↔ (kind ≡ Kind.Array) }
{
    match kind {
        Kind::Array => true,
        _ => false,
    }
}
