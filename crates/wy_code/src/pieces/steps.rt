//! Code whose jumps say how far they go.
ghost use Rattle.std.specs.Prelude.{ℕ, ◌≡◌, ◌<◌, ◌-◌, [], ◌∷◌, ◌++◌, ◌+◌, IfOk, OnOk, List, length, reverse, suc};
ghost use Rattle.std.proofs.Math.ListN.{set};
ghost use Rattle.wy_code.specs.pieces.Steps as spec;
ghost use Rattle.wy_code.specs.declared.pieces.steps.Step.{Step};

use crate::Instr;
use std::alloc::{AllocError, Global};
use std::marker::Model;
use wy_items::{Items, NoMemory};

/// A piece of code: an instruction that goes on behind it, or a jump.
#[derive(Drop)]
pub enum Step {
    /// An instruction.
    Does(Instr),
    /// Goes on, over so many steps behind it.
    GoesOn(u32),
    /// Goes back, to the step that stands so many before it.
    GoesBack(u32),
    /// Where the register is false, goes on over so many steps behind it.
    GoesOnUnless(u32, u32),
}

/// Steps, which are made from the last to the first.
#[derive(Drop)]
pub struct Steps {
    backwards: Vec<Step>,
}

impl Model for Steps {
    ghost use Rattle.std.specs.Prelude.{List, reverse};
    ghost use Rattle.wy_code.specs.declared.pieces.steps.Step.{Step};

    ghost Value = { List Step };

    ghost view = { λ s. reverse s.backwards.items };
}

impl Steps {
    /// No steps. It takes no memory.
    pub fn none(alloc: Global) -> Steps
        ensures value { result ≡ [] }
    {
        Steps {
            backwards: Vec::new(alloc),
        }
    }

    /// How many there are.
    pub fn len(&self) -> usize
        ensures value { result ≡ length self.now }
    {
        self.backwards.len()
    }

    /// The steps, the last one first.
    pub fn into_backwards(self) -> Vec<Step>
        ensures value { reverse result.items ≡ self }
    {
        let Steps { backwards } = self;
        backwards
    }

    /// How many there are more than so many.
    pub fn since(&self, others: usize) -> Result<u32, NoMemory>
        ensures value { IfOk result (λ n. n ≡ length self.now - others) }
    {
        match u32::try_from(self.backwards.len().saturating_sub(others)) {
            Ok(count) => Ok(count),
            Err(_) => Err(NoMemory),
        }
    }
}

/// A step before the others.
pub fn prepend(step: Step, steps: Steps) -> Result<Steps, NoMemory>
    ensures value { IfOk result (λ s. s ≡ step ∷ steps) }
{
    let Steps { mut backwards } = steps;
    push(&mut backwards, step)?;
    Ok(Steps { backwards })
}

fn push(steps: &mut Vec<Step>, step: Step) -> Result<(), AllocError>
    ensures value { OnOk result (steps.new.items ≡ steps.old.items ++ step ∷ []) }
{
    steps.push(step)?;
    Ok(())
}

/// An instruction before the others.
pub fn does(instr: Instr, steps: Steps) -> Result<Steps, NoMemory>
    ensures value { IfOk result (λ s. s ≡ spec.does instr steps) }
{
    prepend(Step::Does(instr), steps)
}

/// Registers are released before the others, where there are any.
pub fn clear(registers: Items<u32>, steps: Steps) -> Result<Steps, NoMemory>
    ensures value { IfOk result (λ s. s ≡ spec.clear registers ++ steps) }
{
    if registers.len() == 0 {
        return Ok(steps);
    }
    does(Instr::Clear(registers), steps)
}

/// A register is released before the others.
pub fn clear_one(alloc: Global, register: u32, steps: Steps) -> Result<Steps, NoMemory>
    ensures value { IfOk result (λ s. s ≡ spec.clear (register ∷ []) ++ steps) }
{
    let mut registers = Items::new(alloc);
    registers.push(register)?;
    clear(registers, steps)
}

/// What a register holds is released by way of a free one.
pub fn dropped(alloc: Global, register: u32, free: u32, steps: Steps) -> Result<Steps, NoMemory>
    ensures value { IfOk result (λ s. s ≡ spec.dropped register free ++ steps) }
{
    let steps = clear_one(alloc, free, steps)?;
    does(Instr::Move(free, register), steps)
}

/// The register behind this one.
pub fn next(register: u32) -> Result<u32, NoMemory>
    ensures value { IfOk result (λ r. r ≡ suc register) }
{
    match register.checked_add(1) {
        Some(next) => Ok(next),
        None => Err(NoMemory),
    }
}

/// So many registers, from one on.
pub fn registers_from(alloc: Global, register: u32, count: usize) -> Result<Items<u32>, NoMemory>
    ensures value { IfOk result (λ rs. rs ≡ spec.registers_from register count) }
{
    let mut registers = Items::new(alloc);
    let mut here = register;
    for _ in 0..count {
        registers.push(here)?;
        here = next(here)?;
    }
    Ok(registers)
}

/// The steps behind so many others are gone over, where there are any.
pub fn jump_over(end: usize, steps: Steps) -> Result<Steps, NoMemory>
    ensures value { (second old : List Step) → steps ≡ second ++ old → length old ≡ end → IfOk result (λ s. s ≡ spec.jumped second old) }
{
    let count = steps.since(end)?;
    if count == 0 {
        return Ok(steps);
    }
    prepend(Step::GoesOn(count), steps)
}

/// A fork before the first code of it, which begins behind `mid` steps: the second code, which is
/// gone over, ends behind `end` steps.
pub fn fork(register: u32, end: usize, mid: usize, steps: Steps) -> Result<Steps, NoMemory>
    ensures value { (first second old : List Step) → steps ≡ first ++ spec.jumped second old → length old ≡ end → length (spec.jumped second old) ≡ mid → IfOk result (λ s. s ≡ spec.fork register first second ++ old) }
{
    let count = steps.since(mid)?;
    if mid > end {
        let Some(count) = count.checked_add(1) else {
            return Err(NoMemory);
        };
        return prepend(Step::GoesOnUnless(register, count), steps);
    }
    if count == 0 {
        return Ok(steps);
    }
    prepend(Step::GoesOnUnless(register, count), steps)
}

/// The code behind so many others is run where the register is true.
pub fn where_true(register: u32, end: usize, steps: Steps) -> Result<Steps, NoMemory>
    ensures value { (first old : List Step) → steps ≡ first ++ old → length old ≡ end → IfOk result (λ s. s ≡ spec.fork register first [] ++ old) }
{
    fork(register, end, end, steps)
}

/// The step back of turns before the others. Where it goes is said by `end_turns`.
pub fn begin_turns(steps: Steps) -> Result<Steps, NoMemory>
    ensures value { IfOk result (λ s. s ≡ Step.GoesBack 0 ∷ steps) }
{
    prepend(Step::GoesBack(0), steps)
}

/// Before the body of turns, behind whose step back `done` steps stand: where the register is false,
/// the code goes on behind the turns.
pub fn leave_turns(register: u32, done: usize, steps: Steps) -> Result<Steps, NoMemory>
    ensures value { (body old : List Step) → steps ≡ body ++ Step.GoesBack 0 ∷ old → length old ≡ done → IfOk result (λ s. s ≡ Step.GoesOnUnless register (length body + 1) ∷ (body ++ Step.GoesBack 0 ∷ old)) }
{
    let over = steps.since(done)?;
    prepend(Step::GoesOnUnless(register, over), steps)
}

/// Before the test of turns, behind which `done` steps stand: the step back goes to the test.
pub fn end_turns(done: usize, steps: Steps) -> Result<Steps, NoMemory>
    ensures value { (test body old : List Step) (register : ℕ) → steps ≡ test ++ Step.GoesOnUnless register (length body + 1) ∷ (body ++ Step.GoesBack 0 ∷ old) → length old ≡ done → IfOk result (λ s. s ≡ spec.turns test register body ++ old) }
{
    goes_back(done, steps)
}

/// The step back that stands behind `at` others goes to the first step.
fn goes_back(at: usize, steps: Steps) -> Result<Steps, NoMemory>
    ensures value { (first old : List Step) (s : Step) → steps ≡ first ++ s ∷ old → length old ≡ at → IfOk result (λ r. r ≡ first ++ Step.GoesBack (length first) ∷ old) }
{
    let Some(behind) = at.checked_add(1) else {
        return Err(NoMemory);
    };
    let count = steps.since(behind)?;
    let Steps { mut backwards } = steps;
    if at >= backwards.len() {
        return Err(NoMemory);
    }
    put(&mut backwards, at, Step::GoesBack(count));
    Ok(Steps { backwards })
}

fn put(steps: &mut Vec<Step>, at: usize, step: Step)
    requires within { at < length steps.old.items }
    ensures value { steps.new.items ≡ set steps.old.items at step }
{
    steps[at] = step;
}
