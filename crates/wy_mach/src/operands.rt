//! What instructions read from registers.
ghost use Rattle.std.specs.Prelude.{◌≡◌, ◌≤◌, ◌<◌, ℕ, length, MatchOption, slice_index_or};
ghost use Rattle.wy_value.specs.Datum.{Datum};
ghost use Rattle.wy_heap.specs.declared.part.Part.TheVariants.{Null};
ghost use Rattle.wy_heap.specs.Nodes.{map_of};
ghost use Rattle.wy_heap.specs.Meaning.{Means};
ghost use Rattle.wy_heap.specs.Parts.{IsKind};
ghost use Rattle.wy_mach.specs.Showing.{AreRegisters};
ghost use Rattle.wy_mach.specs.Operands.{number_in, truth_in, number_of, truth_of, Reads};

use wy_heap::{Heap, Kind, Place};

/// The number that a register holds, where it holds one. It takes no memory, and constant time.
pub fn number(heap: &Heap, registers: &[Place], register: u32) -> Option<i128>
    requires { AreRegisters heap.now registers.now }
    ensures { Reads heap.now registers.now register number_in result }
{
    match kind_in(heap, registers, register) {
        Some(kind) => number_of(kind),
        None => None,
    }
}

/// The truth value that a register holds, where it holds one. It takes no memory, and constant time.
pub fn truth(heap: &Heap, registers: &[Place], register: u32) -> Option<bool>
    requires { AreRegisters heap.now registers.now }
    ensures { Reads heap.now registers.now register truth_in result }
{
    match kind_in(heap, registers, register) {
        Some(kind) => truth_of(kind),
        None => None,
    }
}

// the kind of what a register holds, where there is one with this number
pub(crate) fn kind_in(heap: &Heap, registers: &[Place], register: u32) -> Option<Kind>
    requires { AreRegisters heap.now registers.now }
    ensures { MatchOption result (length registers.now ≤ register) (λ k. (register < length registers.now)
        × ((d : Datum) → Means (map_of heap.now) d (slice_index_or registers.now register Null) → IsKind heap.now.shapes d k)) }
{
    let index = register as usize;
    if index < registers.len() {
        Some(heap.kind(&registers[index]))
    } else {
        None
    }
}

fn number_of(kind: Kind) -> Option<i128>
    ensures { result ≡ number_of kind }
{
    match kind {
        Kind::Int(n) => Some(n),
        _ => None,
    }
}

fn truth_of(kind: Kind) -> Option<bool>
    ensures { result ≡ truth_of kind }
{
    match kind {
        Kind::Bool(b) => Some(b),
        _ => None,
    }
}
