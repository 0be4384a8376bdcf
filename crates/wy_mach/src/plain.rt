//! The instructions that go on behind and print nothing.
ghost use Rattle.std.specs.Prelude.{◌≡◌, ◌≤◌, vec_capacity, OnOk, OnErr, IfErr};
ghost use Rattle.wy_value.specs.Shapes.{IsShapes};
ghost use Rattle.wy_heap.specs.Nodes.{map_of};
ghost use Rattle.wy_heap.specs.Extending.{Extends};
ghost use Rattle.wy_heap.specs.Standing.{SameTable};
ghost use Rattle.wy_code_spec.specs.step.Step.{effect};
ghost use Rattle.wy_mach.specs.Showing.{WentOn, HasNone, IsStop, Turns, AreRegisters};
ghost use Rattle.wy_mach.specs.Running.{IsPlain, IsMoving, HasInt, MayTakeMemory, stop_result};
ghost use Rattle.wy_mach.specs.SharedTurns.{SharesIn, WantsIn};

use crate::comparing::equal;
use crate::filling::fill;
use crate::items::item;
use crate::kinds::kind;
use crate::looking::length;
use crate::making::array;
use crate::moving::{clear, load, move_to, share};
use crate::numbers::{arith, compare, negate};
use crate::parts::field;
use crate::records::record;
use crate::stop::{Stop, Stuck};
use crate::updating::update;
use std::alloc::Global;
use wy_code::Instr;
use wy_heap::{Heap, Place, Slot};
use wy_value::Shapes;

// makes an instruction that goes on behind and prints nothing
#[inline(always)]
pub(crate) fn plain(
    alloc: Global,
    shapes: &Shapes,
    heap: &mut Heap,
    registers: &mut [Place],
    path: &mut Vec<Slot>,
    instr: &Instr,
) -> Result<(), Stop>
    requires held { AreRegisters heap.old registers.old }
    requires table { IsShapes shapes.now }
    requires extends { Extends shapes.now heap.old.shapes }
    requires plain { IsPlain instr.now }
    requires int { HasInt instr.now }
    ensures turns { Turns heap.old heap.new registers.old registers.new }
    ensures value { OnOk result (WentOn (map_of heap.old) (map_of heap.new) registers.old registers.new (effect shapes.now instr.now)) }
    ensures shares { OnOk result (SharesIn instr.now heap.old heap.new registers.old registers.new) }
    ensures stop { IfErr result (IsStop (map_of heap.old) registers.old (effect shapes.now instr.now)) }
    ensures memory { IfErr result (λ stop. stop ≡ Stop.NoMemory → MayTakeMemory instr.now) }
    ensures wants { IfErr result (λ stop. stop ≡ Stop.NoMemory → WantsIn instr.now heap.old registers.old (vec_capacity path.old)) }
    ensures room { vec_capacity path.old ≤ vec_capacity path.new }
    ensures kept { SameTable heap.old heap.new }
{
    match instr {
        Instr::Share(to, from) => share(heap, registers, *to, *from),
        Instr::Equal(to, left, right) => equal(heap, registers, *to, *left, *right),
        Instr::Array(to, numbers) => array(alloc, heap, registers, *to, numbers.as_slice()),
        Instr::Record(to, shape, numbers) => {
            record(
                alloc,
                shapes,
                heap,
                registers,
                *to,
                *shape,
                numbers.as_slice(),
            )
        }
        Instr::Fill(to, from, count) => fill(heap, registers, *to, *from, *count),
        Instr::Get(to, from, index) => item(heap, registers, *to, *from, *index),
        Instr::Field(to, from, name) => field(heap, registers, *to, *from, *name),
        Instr::Put(whole, steps, from) => {
            update(heap, registers, *whole, steps.as_slice(), *from, path)
        }
        _ => stop_of(moving(shapes, heap, registers, instr)),
    }
}

// makes an instruction that takes no memory, goes on behind and prints nothing
#[inline(always)]
fn moving(
    shapes: &Shapes,
    heap: &mut Heap,
    registers: &mut [Place],
    instr: &Instr,
) -> Result<(), Stuck>
    requires held { AreRegisters heap.old registers.old }
    requires table { IsShapes shapes.now }
    requires extends { Extends shapes.now heap.old.shapes }
    requires moving { IsMoving instr.now }
    requires int { HasInt instr.now }
    ensures turns { Turns heap.old heap.new registers.old registers.new }
    ensures value { OnOk result (WentOn (map_of heap.old) (map_of heap.new) registers.old registers.new (effect shapes.now instr.now)) }
    ensures shares { OnOk result (SharesIn instr.now heap.old heap.new registers.old registers.new) }
    ensures stuck { OnErr result (HasNone (map_of heap.old) registers.old (effect shapes.now instr.now)) }
    ensures kept { SameTable heap.old heap.new }
{
    match instr {
        Instr::Const(to, constant) => load(heap, registers, *to, *constant),
        Instr::Move(to, from) => move_to(heap, registers, *to, *from),
        Instr::Clear(numbers) => {
            clear(heap, registers, numbers.as_slice());
            Ok(())
        }
        Instr::Arith(to, op, left, right) => arith(heap, registers, *to, *op, *left, *right),
        Instr::Compare(to, op, left, right) => compare(heap, registers, *to, *op, *left, *right),
        Instr::Not(to, from) => negate(heap, registers, *to, *from),
        Instr::Len(to, from) => length(heap, registers, *to, *from),
        Instr::Kind(to, from, asked) => kind(shapes, heap, registers, *to, *from, *asked),
        _ => unreachable!(),
    }
}

// the same answer, with the reason
fn stop_of(outcome: Result<(), Stuck>) -> Result<(), Stop>
    ensures { result ≡ stop_result outcome }
{
    match outcome {
        Ok(()) => Ok(()),
        Err(Stuck) => Err(Stop::Stuck),
    }
}
