//! Code before a point, and what is live there.
ghost use Rattle.std.specs.Prelude.{◌≡◌, ◌+◌, ◌∷◌, ◌++◌, suc, cond, IfOk};
ghost use Rattle.wy_core.specs.CoreSeen.{seen_expr};
ghost use Rattle.wy_code.specs.declared.instructions.Instr.{Instr};
ghost use Rattle.wy_code_spec.specs.compiled.Expressions as spec;
ghost use Rattle.wy_live.specs.Sets as sets;
ghost use Rattle.wy_code.specs.pieces.Steps as pieces;

use std::alloc::Global;
use wy_code::Instr;
use wy_code::pieces::{NoMemory, Steps, clear, clear_one, does};
use wy_core::{Expr, ExprKind, Op};
use wy_items::Items;
use wy_live::{Variables, next_lost};

/// Code before a point, and what is live there.
#[derive(Drop)]
pub struct Made {
    pub live: Variables,
    pub steps: Steps,
}

/// The variables that are live in the one and not in the other. It is linear in the words of
/// both sets, beside a search for each of these.
#[tactic(auto, using(crate::proofs::LostLemmas::first_lost, crate::proofs::LostLemmas::next_lost))]
fn lost(alloc: Global, one: &Variables, other: &Variables) -> Result<Items<u32>, NoMemory>
    ensures value { IfOk result (λ rs. rs ≡ spec.lost one.now other.now) }
{
    let mut registers = Items::new(alloc);
    let mut variable = next_lost(one, other, 0);
    while variable < one.len() {
        registers.push(register_of(variable)?)?;
        variable = next_lost(one, other, variable + 1);
    }
    Ok(registers)
}

/// The register of a variable.
fn register_of(variable: usize) -> Result<u32, NoMemory>
    ensures value { IfOk result (λ r. r ≡ variable) }
{
    match u32::try_from(variable) {
        Ok(register) => Ok(register),
        Err(_) => Err(NoMemory),
    }
}

/// They are released before the others.
pub fn released(
    alloc: Global,
    one: &Variables,
    other: &Variables,
    steps: Steps,
) -> Result<Steps, NoMemory>
    ensures value { IfOk result (λ s. s ≡ spec.released one.now other.now ++ steps) }
{
    clear(lost(alloc, one, other)?, steps)
}

/// What is so of `&&` and `||` where it is so of their right operand, and of each other operator.
fn right_or(op: Op, right: bool) -> bool
    ensures value { result ≡ spec.right_or op right }
{
    match op {
        Op::And => right,
        Op::Or => right,
        _ => true,
    }
}

/// Whether the value is no list and no record, whatever the variables hold.
pub fn is_plain(expr: &Expr) -> bool
    ensures value { result ≡ spec.is_plain (seen_expr expr.now) }
{
    match &expr.kind {
        ExprKind::Null => true,
        ExprKind::Bool(_) => true,
        ExprKind::Int(_) => true,
        ExprKind::Var(_) => false,
        ExprKind::Call(_, _) => false,
        ExprKind::Neg(_) => true,
        ExprKind::Not(_) => true,
        ExprKind::Len(_) => true,
        ExprKind::Binary(op, _, right) => right_or(*op, is_plain(right.get())),
        ExprKind::Is(_, _) => false,
        ExprKind::Index(_, _) => false,
        ExprKind::Field(_, _) => false,
        ExprKind::List(_) => false,
        ExprKind::Repeat(_, _) => false,
        ExprKind::Record(_) => false,
        ExprKind::Quant(_, _, _, _, _) => true,
    }
}

/// A register that may hold a list or a record is released before the others.
pub fn release_unless(
    alloc: Global,
    plain: bool,
    register: u32,
    steps: Steps,
) -> Result<Steps, NoMemory>
    ensures value { IfOk result (λ s. s ≡ spec.release_unless plain register ++ steps) }
{
    if plain {
        return Ok(steps);
    }
    clear_one(alloc, register, steps)
}

/// An instruction before the others, which changes nothing of what is live.
pub fn plain(instr: Instr, behind: Made) -> Result<Made, NoMemory>
    ensures value { IfOk result (λ m. m.steps ≡ pieces.does instr behind.steps) }
    ensures live { IfOk result (λ m. m.live ≡ behind.live) }
{
    let Made { live, steps } = behind;
    let steps = does(instr, steps)?;
    Ok(Made { live, steps })
}

/// A use, which moves where the variable isn't live behind it.
pub fn used(variable: u32, register: u32, behind: Made) -> Result<Made, NoMemory>
    ensures value { IfOk result (λ m. m.steps ≡ pieces.does (cond (sets.has behind.live variable) (Instr.Share register variable) (Instr.Move register variable)) behind.steps) }
    ensures live { IfOk result (λ m. m.live ≡ sets.with behind.live variable) }
{
    let Made { mut live, steps } = behind;
    let steps = if live.has(variable) {
        does(Instr::Share(register, variable), steps)?
    } else {
        does(Instr::Move(register, variable), steps)?
    };
    live.insert(variable)?;
    Ok(Made { live, steps })
}

/// The register that stands so many behind one.
pub fn register_at(register: u32, offset: usize) -> Result<u32, NoMemory>
    ensures value { IfOk result (λ r. r ≡ register + offset) }
{
    let Ok(offset) = u32::try_from(offset) else {
        return Err(NoMemory);
    };
    match register.checked_add(offset) {
        Some(register) => Ok(register),
        None => Err(NoMemory),
    }
}

/// The register before this one.
pub fn previous(register: u32) -> Result<u32, NoMemory>
    ensures value { IfOk result (λ r. suc r ≡ register) }
{
    match register.checked_sub(1) {
        Some(previous) => Ok(previous),
        None => Err(NoMemory),
    }
}
