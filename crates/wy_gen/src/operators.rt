//! The code of operators.
ghost use Rattle.std.specs.Prelude.{◌≡◌, [], ◌++◌, IfOk, List, length, suc};
ghost use Rattle.wy_core.specs.CoreSeen.{seen_expr};
ghost use Rattle.wy_code_spec.specs.compiled.Expressions as spec;
ghost use Rattle.wy_live.specs.Walks as lives;
ghost use Rattle.wy_code.specs.pieces.Steps as pieces;
ghost use Rattle.wy_code.specs.declared.pieces.steps.Step.{Step};

use crate::made::{Made, plain, release_unless, released};
use std::alloc::Global;
use wy_code::pieces::{NoMemory, does, fork, jump_over, where_true};
use wy_code::{Arithmetic, Comparison, Instr};
use wy_core::{Expr, Op};
use wy_live::Variables;

/// Behind the right side of `&&`: what that side alone uses is released, since it may be left out.
pub fn begin_and(alloc: Global, right: &Expr, behind: Made) -> Result<Made, NoMemory>
    ensures value { IfOk result (λ m. m.steps ≡ spec.released (lives.before (seen_expr right.now) behind.live) behind.live ++ behind.steps) }
    ensures live { IfOk result (λ m. m.live ≡ behind.live) }
{
    let Made { live, steps } = behind;
    let both = wy_live::before(right, live.copy(alloc)?)?;
    let steps = released(alloc, &both, &live, steps)?;
    Ok(Made { live, steps })
}

/// The right side of `&&`, which ends behind `end` steps, where the left one is true.
pub fn end_and(register: u32, end: usize, right: Made) -> Result<Made, NoMemory>
    ensures value { (first old : List Step) → right.steps ≡ first ++ old → length old ≡ end → IfOk result (λ m. m.steps ≡ pieces.fork register first [] ++ old) }
    ensures live { IfOk result (λ m. m.live ≡ right.live) }
{
    let Made { live, steps } = right;
    let steps = where_true(register, end, steps)?;
    Ok(Made { live, steps })
}

/// The right side of `||` where the left one is false, which ends behind `end` steps; else what that
/// side alone uses is released.
pub fn end_or(
    alloc: Global,
    after: &Variables,
    register: u32,
    end: usize,
    right: Made,
) -> Result<Made, NoMemory>
    ensures value { (second old : List Step) → right.steps ≡ second ++ old → length old ≡ end → IfOk result (λ m. m.steps ≡ pieces.fork register (spec.released right.live after.now) second ++ old) }
    ensures live { IfOk result (λ m. m.live ≡ right.live) }
{
    let Made { live, steps } = right;
    let steps = jump_over(end, steps)?;
    let mid = steps.len();
    let steps = released(alloc, &live, after, steps)?;
    let steps = fork(register, end, mid, steps)?;
    Ok(Made { live, steps })
}

/// An operator that evaluates both sides, which stand in two registers; what comes of it comes into
/// `register`.
pub fn operator(
    alloc: Global,
    op: Op,
    is_plain: bool,
    register: u32,
    left: u32,
    right: u32,
    behind: Made,
) -> Result<Made, NoMemory>
    ensures value { IfOk result (λ m. m.steps ≡ spec.operator op register left right is_plain ++ behind.steps) }
    ensures live { IfOk result (λ m. m.live ≡ behind.live) }
{
    match op {
        Op::Add => arith(Arithmetic::Add, register, left, right, behind),
        Op::Sub => arith(Arithmetic::Sub, register, left, right, behind),
        Op::Mul => arith(Arithmetic::Mul, register, left, right, behind),
        Op::Div => arith(Arithmetic::Div, register, left, right, behind),
        Op::Mod => arith(Arithmetic::Mod, register, left, right, behind),
        Op::Less => compare(Comparison::Less, register, left, right, behind),
        Op::LessEqual => compare(Comparison::LessEqual, register, left, right, behind),
        Op::Greater => compare(Comparison::Greater, register, left, right, behind),
        Op::GreaterEqual => compare(Comparison::GreaterEqual, register, left, right, behind),
        Op::Equal => equal(alloc, is_plain, register, left, right, behind),
        Op::And => Ok(behind),
        Op::Or => Ok(behind),
    }
}

fn arith(
    op: Arithmetic,
    register: u32,
    left: u32,
    right: u32,
    behind: Made,
) -> Result<Made, NoMemory>
    ensures value { IfOk result (λ m. m.steps ≡ spec.arith op register left right ++ behind.steps) }
    ensures live { IfOk result (λ m. m.live ≡ behind.live) }
{
    plain(Instr::Arith(register, op, left, right), behind)
}

fn compare(
    op: Comparison,
    register: u32,
    left: u32,
    right: u32,
    behind: Made,
) -> Result<Made, NoMemory>
    ensures value { IfOk result (λ m. m.steps ≡ spec.compare op register left right ++ behind.steps) }
    ensures live { IfOk result (λ m. m.live ≡ behind.live) }
{
    plain(Instr::Compare(register, op, left, right), behind)
}

/// A left side that was evaluated is given up by the answer, which takes its place; a right side that
/// was is released.
fn equal(
    alloc: Global,
    is_plain: bool,
    register: u32,
    left: u32,
    right: u32,
    behind: Made,
) -> Result<Made, NoMemory>
    ensures value { IfOk result (λ m. m.steps ≡ spec.equal is_plain register left right ++ behind.steps) }
    ensures live { IfOk result (λ m. m.live ≡ behind.live) }
{
    let Made { live, steps } = behind;
    let steps = release_unless(alloc, is_plain, right, steps)?;
    let steps = does(Instr::Equal(register, left, right), steps)?;
    Ok(Made { live, steps })
}
