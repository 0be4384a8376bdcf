//! The instructions that print: `Print` and `PrintInt`. They take no memory.
ghost use Rattle.std.specs.Prelude.{◌≡◌, ◌≤◌, ◌∷◌, [], ℕ, List, OnOk, OnErr, IfErr};
ghost use Rattle.std.specs.Fmt.{signed_decimal};
ghost use Rattle.wy_value.specs.declared.shapes.Shapes.{Shapes};
ghost use Rattle.wy_heap.specs.Nodes.{map_of};
ghost use Rattle.wy_heap.specs.Standing.{AreHeld};
ghost use Rattle.wy_port.specs.Count.{Rose};
ghost use Rattle.wy_port.specs.Taken.{TookFront, with_taken};
ghost use Rattle.wy_code.specs.declared.instructions.Instr.{Instr};
ghost use Rattle.wy_code_spec.specs.step.Step.{effect};
ghost use Rattle.wy_mach.specs.Showing.{AreRegisters};
ghost use Rattle.wy_mach.specs.Texts.{IsText, HasText};
ghost use Rattle.wy_mach.specs.Printed.{Prints, IsPrintStop, IsTextStop};

use crate::operands::number;
use crate::texts::{gather, text_length};
use itoa::Buffer;
use wy_heap::{Heap, Place};
use wy_port::{Failed, Sink, write_whole};

/// Why a print doesn't go on.
#[derive(Clone, Copy, Debug, PartialEq, Eq)]
pub enum PrintStop {
    /// What is to be printed is no array of ASCII codes, or no number. Nothing was written.
    Stuck,
    /// The sink failed, and counted it. It took a front of what is to be printed.
    OutFault,
}

// how many bytes are written at once
const PIECE: usize = 4096;

/// `Print`: the bytes of an array of ASCII codes go to the sink, up to 4,096 of them in one write, and more
/// in pieces of so many. All are looked at before the first is written. It takes no memory, and time linear
/// in the array.
pub fn print<O: Sink>(
    heap: &Heap,
    registers: &[Place],
    from: u32,
    out: &mut O,
) -> Result<(), PrintStop>
    requires held { AreRegisters heap.now registers.now }
    ensures value { OnOk result ((shapes : Shapes) → Prints (map_of heap.now) registers.now (O.taken out.old) (O.taken out.new) (effect shapes (Instr.Print from))) }
    ensures stop { IfErr result (λ stop. (shapes : Shapes) → IsPrintStop (map_of heap.now) registers.now (O.taken out.old) (O.taken out.new) (O.faults out.old) (O.faults out.new) (effect shapes (Instr.Print from)) stop) }
    ensures count { O.faults out.old ≤ O.faults out.new }
{
    let index = from as usize;
    if index >= registers.len() {
        return Err(PrintStop::Stuck);
    }
    print_place(heap, &registers[index], out)
}

// the bytes of an array of ASCII codes, which a place holds, go to the sink
fn print_place<O: Sink>(heap: &Heap, place: &Place, out: &mut O) -> Result<(), PrintStop>
    requires held { AreHeld heap.now (place.now ∷ []) }
    ensures value { OnOk result ((bytes : List ℕ) → IsText heap.now place.now bytes → O.taken out.new ≡ with_taken (O.taken out.old) bytes) }
    ensures stop { IfErr result (IsTextStop heap.now place.now (O.taken out.old) (O.taken out.new) (O.faults out.old) (O.faults out.new)) }
    ensures count { O.faults out.old ≤ O.faults out.new }
{
    let Some(count) = text_length(heap, place) else {
        return Err(PrintStop::Stuck);
    };
    match write_text(heap, place, count, out) {
        Ok(()) => Ok(()),
        Err(_) => Err(PrintStop::OutFault),
    }
}

// writes a text of so many codes
fn write_text<O: Sink>(heap: &Heap, place: &Place, count: u64, out: &mut O) -> Result<(), Failed>
    requires held { AreHeld heap.now (place.now ∷ []) }
    requires text { HasText heap.now place.now count }
    ensures taken { OnOk result ((bytes : List ℕ) → IsText heap.now place.now bytes → O.taken out.new ≡ with_taken (O.taken out.old) bytes) }
    ensures front { OnErr result ((bytes : List ℕ) → IsText heap.now place.now bytes → TookFront (O.taken out.old) (O.taken out.new) bytes) }
    ensures cause { OnErr result (Rose (O.faults out.old) (O.faults out.new)) }
    ensures count { O.faults out.old ≤ O.faults out.new }
{
    let mut piece = [0u8; PIECE];
    let mut start = 0u64;
    while start < count {
        let many = next_many(count - start);
        gather(heap, place, start, &mut piece, many);
        write_whole(out, &piece[..many])?;
        start += many as u64;
    }
    Ok(())
}

// how many bytes go into the next piece, where so many are left
fn next_many(left: u64) -> usize
    requires { 1 ≤ left }
    ensures some { 1 ≤ result }
    ensures within { result ≤ left }
    ensures room { result ≤ 4096 }
{
    if left < PIECE as u64 {
        left as usize
    } else {
        PIECE
    }
}

/// `PrintInt`: a number in decimal goes to the sink, in one write. It takes no memory.
pub fn print_int<O: Sink>(
    heap: &Heap,
    registers: &[Place],
    from: u32,
    out: &mut O,
) -> Result<(), PrintStop>
    requires held { AreRegisters heap.now registers.now }
    ensures value { OnOk result ((shapes : Shapes) → Prints (map_of heap.now) registers.now (O.taken out.old) (O.taken out.new) (effect shapes (Instr.PrintInt from))) }
    ensures stop { IfErr result (λ stop. (shapes : Shapes) → IsPrintStop (map_of heap.now) registers.now (O.taken out.old) (O.taken out.new) (O.faults out.old) (O.faults out.new) (effect shapes (Instr.PrintInt from)) stop) }
    ensures count { O.faults out.old ≤ O.faults out.new }
{
    let Some(number) = number(heap, registers, from) else {
        return Err(PrintStop::Stuck);
    };
    match write_number(number, out) {
        Ok(()) => Ok(()),
        Err(_) => Err(PrintStop::OutFault),
    }
}

// writes a number in decimal
fn write_number<O: Sink>(number: i128, out: &mut O) -> Result<(), Failed>
    ensures taken { OnOk result (O.taken out.new ≡ with_taken (O.taken out.old) (signed_decimal number)) }
    ensures front { OnErr result (TookFront (O.taken out.old) (O.taken out.new) (signed_decimal number)) }
    ensures cause { OnErr result (Rose (O.faults out.old) (O.faults out.new)) }
    ensures count { O.faults out.old ≤ O.faults out.new }
{
    let mut digits = Buffer::new();
    write_whole(out, digits.format(number).as_bytes())
}
