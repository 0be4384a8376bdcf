//! From steps to instructions.
ghost use Rattle.std.specs.Prelude.{◌≡◌, ◌∷◌, [], suc, ◌+◌, max, IfOk};
ghost use Rattle.wy_code.specs.pieces.Placing as spec;

use crate::pieces::steps::{Step, Steps, next};
use crate::{Instr, Routine, Slot};
use std::alloc::Global;
use wy_items::{Items, NoMemory};

/// A routine with so many parameters, and as many registers as it needs. It goes through each step
/// once.
pub fn routine_of(alloc: Global, params: usize, steps: Steps) -> Result<Routine, NoMemory>
    ensures value { IfOk result (λ r. r ≡ spec.routine_of params steps) }
{
    let Ok(params) = u32::try_from(params) else {
        return Err(NoMemory);
    };
    let mut registers = params;
    let mut body = Items::new(alloc);
    let mut at = 0u32;
    let mut backwards = steps.into_backwards();
    while let Some(step) = backwards.pop() {
        let instr = placed(at, step)?;
        registers = room(registers, &instr)?;
        body.push(instr)?;
        at = next(at)?;
    }
    Ok(Routine {
        registers,
        params,
        body,
    })
}

/// The instruction of the step with this number.
fn placed(at: u32, step: Step) -> Result<Instr, NoMemory>
    ensures value { IfOk result (λ i. i ∷ [] ≡ spec.placed at (step ∷ [])) }
{
    match step {
        Step::Does(instr) => Ok(instr),
        Step::GoesOn(count) => Ok(Instr::Jump(target(at, count)?)),
        Step::GoesBack(count) => Ok(Instr::Jump(at.saturating_sub(count))),
        Step::GoesOnUnless(register, count) => Ok(Instr::Branch(register, target(at, count)?)),
    }
}

fn target(at: u32, count: u32) -> Result<u32, NoMemory>
    ensures value { IfOk result (λ t. t ≡ suc at + count) }
{
    match next(at)?.checked_add(count) {
        Some(to) => Ok(to),
        None => Err(NoMemory),
    }
}

/// At least so many registers, and enough for the instruction.
fn room(registers: u32, instr: &Instr) -> Result<u32, NoMemory>
    ensures value { IfOk result (λ r. r ≡ max registers (spec.above (spec.registers_in instr.now))) }
{
    match instr {
        Instr::Const(d, _) => above(registers, *d),
        Instr::Move(d, r) => two(registers, *d, *r),
        Instr::Share(d, r) => two(registers, *d, *r),
        Instr::Clear(list) => all(registers, list.as_slice()),
        Instr::Arith(d, _, a, b) => three(registers, *d, *a, *b),
        Instr::Compare(d, _, a, b) => three(registers, *d, *a, *b),
        Instr::Equal(d, a, b) => three(registers, *d, *a, *b),
        Instr::Not(d, a) => two(registers, *d, *a),
        Instr::Jump(_) => Ok(registers),
        Instr::Branch(r, _) => above(registers, *r),
        Instr::Array(d, list) => and_all(registers, *d, list.as_slice()),
        Instr::Record(d, _, list) => and_all(registers, *d, list.as_slice()),
        Instr::Fill(d, v, n) => three(registers, *d, *v, *n),
        Instr::Len(d, a) => two(registers, *d, *a),
        Instr::Get(d, a, i) => three(registers, *d, *a, *i),
        Instr::Field(d, a, _) => two(registers, *d, *a),
        Instr::Put(a, path, v) => slots(registers, *a, *v, path.as_slice()),
        Instr::Kind(d, a, _) => two(registers, *d, *a),
        Instr::Call(d, _, list) => and_all(registers, *d, list.as_slice()),
        Instr::Return(r) => above(registers, *r),
        Instr::Print(a) => above(registers, *a),
        Instr::PrintInt(a) => above(registers, *a),
    }
}

fn above(registers: u32, register: u32) -> Result<u32, NoMemory>
    ensures value { IfOk result (λ r. r ≡ max registers (spec.above (register ∷ []))) }
{
    let wanted = next(register)?;
    if wanted > registers {
        return Ok(wanted);
    }
    Ok(registers)
}

fn two(registers: u32, a: u32, b: u32) -> Result<u32, NoMemory>
    ensures value { IfOk result (λ r. r ≡ max registers (spec.above (a ∷ b ∷ []))) }
{
    above(above(registers, a)?, b)
}

fn three(registers: u32, a: u32, b: u32, c: u32) -> Result<u32, NoMemory>
    ensures value { IfOk result (λ r. r ≡ max registers (spec.above (a ∷ b ∷ c ∷ []))) }
{
    two(above(registers, a)?, b, c)
}

fn and_all(registers: u32, first: u32, list: &[u32]) -> Result<u32, NoMemory>
    ensures value { IfOk result (λ r. r ≡ max registers (spec.above (first ∷ list.now))) }
{
    all(above(registers, first)?, list)
}

fn all(registers: u32, list: &[u32]) -> Result<u32, NoMemory>
    ensures value { IfOk result (λ r. r ≡ max registers (spec.above list.now)) }
{
    let mut registers = registers;
    for register in list {
        registers = above(registers, *register)?;
    }
    Ok(registers)
}

fn slots(registers: u32, a: u32, b: u32, path: &[Slot]) -> Result<u32, NoMemory>
    ensures value { IfOk result (λ r. r ≡ max registers (spec.above (a ∷ b ∷ spec.slot_registers path.now))) }
{
    let mut registers = two(registers, a, b)?;
    for slot in path {
        match slot {
            Slot::Item(register) => registers = above(registers, *register)?,
            Slot::Field(_) => (),
        }
    }
    Ok(registers)
}
