//! The code of quantifiers around that of their bodies.
ghost use Rattle.std.specs.Prelude.{◌≡◌, ◌+◌, ◌∷◌, ◌++◌, IfOk, List, length, suc};
ghost use Rattle.wy_core.specs.CoreSeen.{seen_expr};
ghost use Rattle.wy_code_spec.specs.compiled.Expressions as spec;
ghost use Rattle.wy_live.specs.Walks as lives;
ghost use Rattle.wy_code.specs.declared.pieces.steps.Step.{Step};

use crate::made::{Made, released};
use std::alloc::Global;
use wy_code::pieces::{
    NoMemory, Step, Steps, begin_turns, does, end_turns, leave_turns, next, prepend,
};
use wy_code::{Arithmetic, Comparison, Instr, Scalar};
use wy_core::Expr;
use wy_live::{Variables, turned};

/// A quantifier behind whose body all is made: what is live there and before the body, the register
/// of what the body says, and how many steps stand behind the turns.
#[derive(Drop)]
pub struct Begun {
    pub live: Variables,
    pub free: u32,
    pub done: usize,
    pub start: Made,
}

/// What stands behind the body of a quantifier.
pub fn begin_quantifier(
    alloc: Global,
    all: bool,
    variable: u32,
    body: &Expr,
    register: u32,
    behind: Made,
) -> Result<Begun, NoMemory>
    ensures live { IfOk result (λ b. b.live ≡ lives.turned variable (seen_expr body.now) behind.live) }
    ensures inside { IfOk result (λ b. b.start.live ≡ lives.turned variable (seen_expr body.now) behind.live) }
    ensures free { IfOk result (λ b. b.free ≡ suc (suc register)) }
    ensures value { IfOk result (λ b. b.start.steps ≡ spec.turn_end all register (spec.released b.live behind.live) ++ Step.GoesBack 0 ∷ (spec.ends all register (spec.released b.live behind.live) ++ behind.steps)) }
    ensures done { IfOk result (λ b. b.done ≡ length (spec.ends all register (spec.released b.live behind.live) ++ behind.steps)) }
{
    let Made { live, steps } = behind;
    let inside = turned(variable, body, live.copy(alloc)?)?;
    let Ends { gone, steps } = both_ends(alloc, all, register, &inside, &live, steps)?;
    let done = steps.len();
    let steps = begin_turns(steps)?;
    let steps = turn_end(all, register, gone, steps)?;
    let free = next(next(register)?)?;
    let start = Made {
        live: inside.copy(alloc)?,
        steps,
    };
    Ok(Begun {
        live: inside,
        free,
        done,
        start,
    })
}

/// The ends of a quantifier, and how many steps release what its body alone used.
#[derive(Drop)]
struct Ends {
    gone: usize,
    steps: Steps,
}

/// The end behind all turns, and the one behind a turn that ends the quantifier.
fn both_ends(
    alloc: Global,
    all: bool,
    register: u32,
    inside: &Variables,
    live: &Variables,
    steps: Steps,
) -> Result<Ends, NoMemory>
    ensures value { IfOk result (λ e. e.steps ≡ spec.ends all register (spec.released inside.now live.now) ++ steps) }
    ensures gone { IfOk result (λ e. e.gone ≡ length (spec.released inside.now live.now)) }
{
    let end = steps.len();
    let steps = said(alloc, register, !all, inside, live, steps)?;
    let over = steps.since(end)?;
    let steps = prepend(Step::GoesOn(over), steps)?;
    let steps = does(Instr::Const(register, Scalar::Bool(all)), steps)?;
    let mid = steps.len();
    let steps = released(alloc, inside, live, steps)?;
    let gone = steps.len().saturating_sub(mid);
    Ok(Ends { gone, steps })
}

/// What the body alone used is released, and then what the quantifier says comes into the register.
fn said(
    alloc: Global,
    register: u32,
    truth: bool,
    inside: &Variables,
    live: &Variables,
    steps: Steps,
) -> Result<Steps, NoMemory>
    ensures value { IfOk result (λ s. s ≡ spec.said register truth (spec.released inside.now live.now) ++ steps) }
{
    let steps = does(Instr::Const(register, Scalar::Bool(truth)), steps)?;
    released(alloc, inside, live, steps)
}

/// Behind the body: where it ends the quantifier, the second end is next; else the next number.
fn turn_end(all: bool, register: u32, gone: usize, steps: Steps) -> Result<Steps, NoMemory>
    ensures value { (released : List Step) → length released ≡ gone → IfOk result (λ s. s ≡ spec.turn_end all register released ++ steps) }
{
    let free = next(next(register)?)?;
    let over = counted(gone)?;
    let steps = does(
        Instr::Arith(register, Arithmetic::Add, register, free),
        steps,
    )?;
    let steps = does(Instr::Const(free, Scalar::Int(1)), steps)?;
    let steps = prepend(Step::GoesOnUnless(free, over), steps)?;
    if all {
        return Ok(steps);
    }
    does(Instr::Not(free, free), steps)
}

/// How many steps stand between a turn that ends the quantifier and the end for it.
fn counted(gone: usize) -> Result<u32, NoMemory>
    ensures value { IfOk result (λ n. n ≡ gone + 5) }
{
    let Ok(gone) = u32::try_from(gone) else {
        return Err(NoMemory);
    };
    match gone.checked_add(5) {
        Some(count) => Ok(count),
        None => Err(NoMemory),
    }
}

/// What stands before the body of a quantifier, behind whose turns `done` steps stand.
pub fn end_quantifier(
    variable: u32,
    register: u32,
    live: Variables,
    done: usize,
    body: Made,
) -> Result<Made, NoMemory>
    ensures value { (rest old : List Step) → body.steps ≡ rest ++ Step.GoesBack 0 ∷ old → length old ≡ done → IfOk result (λ m. m.steps ≡ spec.number_turns variable register rest ++ old) }
    ensures live { IfOk result (λ m. m.live ≡ live) }
{
    let to = next(register)?;
    let free = next(to)?;
    let steps = does(Instr::Share(variable, register), body.steps)?;
    let steps = leave_turns(free, done, steps)?;
    let steps = does(Instr::Compare(free, Comparison::Less, register, to), steps)?;
    let steps = end_turns(done, steps)?;
    Ok(Made { live, steps })
}
