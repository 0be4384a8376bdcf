//! The instruction `Kind`.
ghost use Rattle.std.specs.Prelude.{◌≡◌, ◌∷◌, [], ◌++◌, ℕ, List, OnOk, OnErr};
ghost use Rattle.wy_value.specs.Shapes.{IsShapes};
ghost use Rattle.wy_heap.specs.declared.part.Part.{Part};
ghost use Rattle.wy_heap.specs.Nodes.{map_of};
ghost use Rattle.wy_heap.specs.Extending.{Extends};
ghost use Rattle.wy_heap.specs.Standing.{SameTable};
ghost use Rattle.wy_code.specs.declared.instructions.Instr.{Instr};
ghost use Rattle.wy_code_spec.specs.step.Step.{effect};
ghost use Rattle.wy_mach.specs.Showing.{WentOn, HasNone, Turns, AreRegisters};
ghost use Rattle.wy_mach.specs.Sharing.{PutsScalar};
ghost use Rattle.wy_mach.specs.Kinds.{is_null_kind, is_bool_kind, is_int_kind, is_array_kind, is_shape_kind, kind_told};

use crate::operands::kind_in;
use crate::registers::put;
use crate::stop::Stuck;
use wy_code::Kind as Asked;
use wy_heap::{Heap, Kind, Place};
use wy_value::Shapes;

/// `Kind`: whether a register holds something of that kind comes into another one. The shapes are those
/// of the code's table, which the heap's extends. Stuck comes where there is no such shape or register. It
/// takes no memory, and constant time.
#[inline(never)]
pub fn kind(
    shapes: &Shapes,
    heap: &mut Heap,
    registers: &mut [Place],
    to: u32,
    from: u32,
    asked: Asked,
) -> Result<(), Stuck>
    requires held { AreRegisters heap.old registers.old }
    requires table { IsShapes shapes.now }
    requires extends { Extends shapes.now heap.old.shapes }
    ensures turns { Turns heap.old heap.new registers.old registers.new }
    ensures value { OnOk result (WentOn (map_of heap.old) (map_of heap.new) registers.old registers.new (effect shapes.now (Instr.Kind to from asked))) }
    ensures stuck { OnErr result (HasNone (map_of heap.old) registers.old (effect shapes.now (Instr.Kind to from asked))) }
    ensures shares { OnOk result (PutsScalar heap.old heap.new registers.old registers.new to) }
    ensures kept { SameTable heap.old heap.new }
    ensures copies { heap.new.copies ≡ heap.old.copies }
{
    let Some(kind) = kind_in(heap, registers, from) else {
        return Err(Stuck);
    };
    let Some(answer) = told(shapes, kind, asked) else {
        return Err(Stuck);
    };
    put(heap, registers, to, Place::scalar(Kind::Bool(answer)));
    Ok(())
}

// whether a kind is the one that is asked for, where there is a shape with the number that is asked for
fn told(shapes: &Shapes, kind: Kind, asked: Asked) -> Option<bool>
    ensures { result ≡ kind_told shapes.now kind asked }
{
    match asked {
        Asked::Null => Some(is_null(kind)),
        Asked::Bool => Some(is_bool(kind)),
        Asked::Int => Some(is_int(kind)),
        Asked::Array => Some(is_array(kind)),
        Asked::Shape(shape) => {
            if (shape as usize) < shapes.lists.len() {
                Some(is_shape(kind, shape))
            } else {
                None
            }
        }
    }
}

fn is_null(kind: Kind) -> bool
    ensures { result ≡ is_null_kind kind }
{
    match kind {
        Kind::Null => true,
        _ => false,
    }
}

fn is_bool(kind: Kind) -> bool
    ensures { result ≡ is_bool_kind kind }
{
    match kind {
        Kind::Bool(_) => true,
        _ => false,
    }
}

fn is_int(kind: Kind) -> bool
    ensures { result ≡ is_int_kind kind }
{
    match kind {
        Kind::Int(_) => true,
        _ => false,
    }
}

fn is_array(kind: Kind) -> bool
    ensures { result ≡ is_array_kind kind }
{
    match kind {
        Kind::Array => true,
        _ => false,
    }
}

fn is_shape(kind: Kind, shape: u32) -> bool
    ensures { result ≡ is_shape_kind shape kind }
{
    match kind {
        Kind::Record(n) => n == shape,
        _ => false,
    }
}
