//! The code of calls in expressions, and of type tests in them.
ghost use Rattle.std.specs.Prelude.{◌≡◌, ◌∷◌, [], ◌++◌, suc, IfOk};
ghost use Rattle.wy_code.specs.declared.instructions.Instr.{Instr};
ghost use Rattle.wy_core.specs.CoreSeen.{seen_expr, seen_ty};
ghost use Rattle.wy_code_spec.specs.compiled.Expressions as spec;
ghost use Rattle.wy_code_spec.specs.compiled.TypeTests as tests;
ghost use Rattle.wy_code.specs.pieces.Steps as pieces;
ghost use Rattle.wy_code_spec.specs.tables.Tables as tables;

use crate::made::{Made, plain};
use crate::operands::read;
use crate::type_tests::{looks, test};
use std::alloc::Global;
use wy_code::pieces::{NoMemory, does, dropped, next, registers_from};
use wy_code::{Instr, Scalar};
use wy_code_spec::tables::{Context, Target, called};
use wy_core::{Expr, Ty};
use wy_live::Variables;

/// A call on the arguments in so many registers.
pub fn call(
    alloc: Global,
    context: &Context,
    routine: u32,
    register: u32,
    count: usize,
    behind: Made,
) -> Result<Made, NoMemory>
    ensures value { IfOk result (λ m. m.steps ≡ spec.call (tables.target context.now.results routine) routine register count ++ behind.steps) }
    ensures live { IfOk result (λ m. m.live ≡ behind.live) }
{
    match called(context.results.as_slice(), routine) {
        Target::Declared(_) => {
            let arguments = registers_from(alloc, register, count)?;
            plain(Instr::Call(register, routine, arguments), behind)
        }
        Target::Prints => {
            let behind = plain(Instr::Const(register, Scalar::Null), behind)?;
            plain(Instr::Print(register), behind)
        }
        Target::PrintsInt => {
            let behind = plain(Instr::Const(register, Scalar::Null), behind)?;
            plain(Instr::PrintInt(register), behind)
        }
        Target::Nothing => plain(Instr::Const(register, Scalar::Null), behind),
    }
}

/// The variable that is tested in its register: one that is live behind the test, where the test reads
/// it. It recurses as deep as the type nests.
pub fn tested_read(ty: &Ty, expr: &Expr, live: &Variables) -> Option<u32>
    ensures value { result ≡ spec.tested_read (seen_ty ty.now) (seen_expr expr.now) live.now }
{
    if looks(ty) { read(expr, live) } else { None }
}

/// The type test of a value in a register, or of a variable that stays in its own; its answer comes
/// into the register.
pub fn tested(
    alloc: Global,
    context: &Context,
    ty: &Ty,
    place: Option<u32>,
    register: u32,
    behind: Made,
) -> Result<Made, NoMemory>
    ensures value { IfOk result (λ m. m.steps ≡ spec.tested context.now (seen_ty ty.now) place register ++ behind.steps) }
    ensures live { IfOk result (λ m. m.live ≡ behind.live) }
{
    match place {
        None => is_test(alloc, context, ty, register, behind),
        Some(variable) => variable_test(alloc, context, ty, variable, register, behind),
    }
}

/// The type test of a variable, which stays in its register; its answer comes into another.
fn variable_test(
    alloc: Global,
    context: &Context,
    ty: &Ty,
    variable: u32,
    register: u32,
    behind: Made,
) -> Result<Made, NoMemory>
    ensures value { IfOk result (λ m. m.steps ≡ (tests.test context.now (seen_ty ty.now) variable (suc register) (suc (suc register)) ++ pieces.does (Instr.Move register (suc register)) []) ++ behind.steps) }
    ensures live { IfOk result (λ m. m.live ≡ behind.live) }
{
    let answer = next(register)?;
    let free = next(answer)?;
    let Made { live, steps } = behind;
    let steps = does(Instr::Move(register, answer), steps)?;
    let steps = test(alloc, context, ty, variable, answer, free, steps)?;
    Ok(Made { live, steps })
}

/// The type test of a value in a register, whose place its answer takes.
fn is_test(
    alloc: Global,
    context: &Context,
    ty: &Ty,
    register: u32,
    behind: Made,
) -> Result<Made, NoMemory>
    ensures value { IfOk result (λ m. m.steps ≡ spec.is_test context.now (seen_ty ty.now) register ++ behind.steps) }
    ensures live { IfOk result (λ m. m.live ≡ behind.live) }
{
    let answer = next(register)?;
    let free = next(answer)?;
    let Made { live, steps } = behind;
    let steps = does(Instr::Move(register, answer), steps)?;
    let steps = dropped(alloc, register, free, steps)?;
    let steps = test(alloc, context, ty, register, answer, free, steps)?;
    Ok(Made { live, steps })
}
