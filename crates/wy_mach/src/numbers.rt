//! The instructions on numbers and truth values: `Arith`, `Compare` and `Not`. None takes memory.
ghost use Rattle.std.specs.Prelude.{◌≡◌, ◌≤ℤ◌, ◌∷◌, [], ◌++◌, ℕ, ℤ, pos, List, true, OnOk, OnErr, IfSome};
ghost use Rattle.wy_value.specs.Numbers.{is_int};
ghost use Rattle.wy_value.specs.declared.shapes.Shapes.{Shapes};
ghost use Rattle.wy_heap.specs.declared.part.Part.{Part};
ghost use Rattle.wy_heap.specs.Nodes.{map_of};
ghost use Rattle.wy_heap.specs.Standing.{SameTable};
ghost use Rattle.wy_code.specs.declared.instructions.Instr.{Instr};
ghost use Rattle.wy_code_spec.specs.step.Step.{Effect, effect, there, where_so, computes, compares};
ghost use Rattle.wy_mach.specs.Showing.{WentOn, HasNone, Turns, AreRegisters};
ghost use Rattle.wy_mach.specs.Sharing.{PutsScalar};

use crate::operands::{number, truth};
use crate::registers::put;
use crate::stop::Stuck;
use wy_code::{Arithmetic, Comparison};
use wy_heap::{Heap, Kind, Place};
use wy_value::{INT_MAX, INT_MIN};

/// `Arith`: a number of two numbers comes into a register. Stuck comes where one of them is no number,
/// where the result is no `int`, and at a division by zero.
pub fn arith(
    heap: &mut Heap,
    registers: &mut [Place],
    to: u32,
    op: Arithmetic,
    left: u32,
    right: u32,
) -> Result<(), Stuck>
    requires held { AreRegisters heap.old registers.old }
    ensures turns { Turns heap.old heap.new registers.old registers.new }
    ensures value { OnOk result ((shapes : Shapes) → WentOn (map_of heap.old) (map_of heap.new) registers.old registers.new (effect shapes (Instr.Arith to op left right))) }
    ensures stuck { OnErr result ((shapes : Shapes) → HasNone (map_of heap.old) registers.old (effect shapes (Instr.Arith to op left right))) }
    ensures shares { OnOk result (PutsScalar heap.old heap.new registers.old registers.new to) }
    ensures kept { SameTable heap.old heap.new }
    ensures copies { heap.new.copies ≡ heap.old.copies }
{
    let Some(x) = number(heap, registers, left) else {
        return Err(Stuck);
    };
    let Some(y) = number(heap, registers, right) else {
        return Err(Stuck);
    };
    let Some(z) = computed(op, x, y) else {
        return Err(Stuck);
    };
    put(heap, registers, to, Place::scalar(Kind::Int(z)));
    Ok(())
}

/// `Compare`: a truth value of two numbers comes into a register. Stuck comes where one of them is no
/// number.
pub fn compare(
    heap: &mut Heap,
    registers: &mut [Place],
    to: u32,
    op: Comparison,
    left: u32,
    right: u32,
) -> Result<(), Stuck>
    requires held { AreRegisters heap.old registers.old }
    ensures turns { Turns heap.old heap.new registers.old registers.new }
    ensures value { OnOk result ((shapes : Shapes) → WentOn (map_of heap.old) (map_of heap.new) registers.old registers.new (effect shapes (Instr.Compare to op left right))) }
    ensures stuck { OnErr result ((shapes : Shapes) → HasNone (map_of heap.old) registers.old (effect shapes (Instr.Compare to op left right))) }
    ensures shares { OnOk result (PutsScalar heap.old heap.new registers.old registers.new to) }
    ensures kept { SameTable heap.old heap.new }
    ensures copies { heap.new.copies ≡ heap.old.copies }
{
    let Some(x) = number(heap, registers, left) else {
        return Err(Stuck);
    };
    let Some(y) = number(heap, registers, right) else {
        return Err(Stuck);
    };
    put(
        heap,
        registers,
        to,
        Place::scalar(Kind::Bool(compared(op, x, y))),
    );
    Ok(())
}

/// `Not`: the other truth value comes into a register. Stuck comes where there is none.
pub fn negate(heap: &mut Heap, registers: &mut [Place], to: u32, from: u32) -> Result<(), Stuck>
    requires held { AreRegisters heap.old registers.old }
    ensures turns { Turns heap.old heap.new registers.old registers.new }
    ensures value { OnOk result ((shapes : Shapes) → WentOn (map_of heap.old) (map_of heap.new) registers.old registers.new (effect shapes (Instr.Not to from))) }
    ensures stuck { OnErr result ((shapes : Shapes) → HasNone (map_of heap.old) registers.old (effect shapes (Instr.Not to from))) }
    ensures shares { OnOk result (PutsScalar heap.old heap.new registers.old registers.new to) }
    ensures kept { SameTable heap.old heap.new }
    ensures copies { heap.new.copies ≡ heap.old.copies }
{
    let Some(b) = truth(heap, registers, from) else {
        return Err(Stuck);
    };
    put(heap, registers, to, Place::scalar(Kind::Bool(!b)));
    Ok(())
}

// the result of an operator, where it is an `int`
fn computed(op: Arithmetic, x: i128, y: i128) -> Option<i128>
    ensures value { (next : ℤ → Effect) → computes op x y (λ z. where_so (is_int z) (next z)) ≡ there result next }
    ensures int { IfSome result (λ z. is_int z ≡ true) }
{
    match exact(op, x, y) {
        Some(z) => within(z),
        None => None,
    }
}

// the number, where it is an `int`
fn within(z: i128) -> Option<i128>
    ensures value { (next : ℤ → Effect) → where_so (is_int z) (next z) ≡ there result next }
    ensures int { IfSome result (λ n. is_int n ≡ true) }
{
    if z < INT_MIN || z > INT_MAX {
        None
    } else {
        Some(z)
    }
}

// the result of an operator, where it lies within 128 bits. Sums, as most are, need no table of jumps.
fn exact(op: Arithmetic, x: i128, y: i128) -> Option<i128>
    ensures { (next : ℤ → Effect) → computes op x y (λ z. where_so (is_int z) (next z)) ≡ there result (λ z. where_so (is_int z) (next z)) }
{
    match op {
        Arithmetic::Add => x.checked_add(y),
        Arithmetic::Sub => x.checked_sub(y),
        _ => product(op, x, y),
    }
}

// the same of an operator that is no sum
#[inline(never)]
fn product(op: Arithmetic, x: i128, y: i128) -> Option<i128>
    requires add { op ≡ Arithmetic.Add → ⊥ }
    requires sub { op ≡ Arithmetic.Sub → ⊥ }
    ensures { (next : ℤ → Effect) → computes op x y (λ z. where_so (is_int z) (next z)) ≡ there result (λ z. where_so (is_int z) (next z)) }
{
    match op {
        Arithmetic::Add | Arithmetic::Sub => unreachable!(),
        Arithmetic::Mul => x.checked_mul(y),
        Arithmetic::Div => quotient(x, y),
        Arithmetic::Mod => remainder(x, y),
    }
}

// the quotient of a division whose rest isn't negative
fn quotient(x: i128, y: i128) -> Option<i128>
    ensures { (next : ℤ → Effect) → computes Arithmetic.Div x y (λ z. where_so (is_int z) (next z)) ≡ there result (λ z. where_so (is_int z) (next z)) }
{
    x.checked_div_euclid(y)
}

// the rest of that division
fn remainder(x: i128, y: i128) -> Option<i128>
    ensures { (next : ℤ → Effect) → computes Arithmetic.Mod x y (λ z. where_so (is_int z) (next z)) ≡ there result (λ z. where_so (is_int z) (next z)) }
{
    if y == 0 {
        None
    } else {
        Some(x.wrapping_rem_euclid(y))
    }
}

// whether the numbers compare so. What asks for less, as most do, needs no table of jumps.
fn compared(op: Comparison, x: i128, y: i128) -> bool
    ensures { result ≡ compares op x y }
{
    match op {
        Comparison::Less => x < y,
        Comparison::LessEqual => x <= y,
        _ => exceeds(op, x, y),
    }
}

// the same of what asks for more
#[inline(never)]
fn exceeds(op: Comparison, x: i128, y: i128) -> bool
    requires less { op ≡ Comparison.Less → ⊥ }
    requires less_equal { op ≡ Comparison.LessEqual → ⊥ }
    ensures { result ≡ compares op x y }
{
    match op {
        Comparison::Less | Comparison::LessEqual => unreachable!(),
        Comparison::Greater => x > y,
        Comparison::GreaterEqual => x >= y,
    }
}
