//! The code of statements without blocks.
ghost use Rattle.std.specs.Prelude.{◌≡◌, ◌-◌, ◌∷◌, ◌++◌, [], IfOk, length, map};
ghost use Rattle.wy_core.specs.CoreSeen.{seen_expr, seen_exprs, seen_option, seen_step};
ghost use Rattle.wy_core.specs.CoreTree.{exprs_of};
ghost use Rattle.wy_live.specs.Sets as sets;
ghost use Rattle.wy_live.specs.Walks as lives;
ghost use Rattle.wy_code_spec.specs.compiled.Statements as spec;
ghost use Rattle.wy_code.specs.declared.pieces.steps.Step.{Step};
ghost use Rattle.wy_code_spec.specs.tables.Tables as tables;

use crate::expressions::{code, codes, into};
use crate::made::{Made, is_plain, plain, release_unless};
use crate::straight::is_straight;
use crate::updates::update;
use std::alloc::Global;
use wy_code::pieces::{NoMemory, Step, Steps, clear_one, does, prepend, registers_from};
use wy_code::{Instr, Scalar};
use wy_code_spec::tables::{Context, Target, called};
use wy_core::{Expr, Step as PathStep};
use wy_live::Variables;

/// A step over what stands before so many others, where this is live.
pub fn jump(live: Variables, end: usize, behind: Made) -> Result<Made, NoMemory>
    ensures value { IfOk result (λ m. m.steps ≡ Step.GoesOn (length behind.steps - end) ∷ behind.steps) }
    ensures live { IfOk result (λ m. m.live ≡ live) }
{
    let over = behind.steps.since(end)?;
    let steps = prepend(Step::GoesOn(over), behind.steps)?;
    Ok(Made { live, steps })
}

/// A value goes from a register into its variable, or is released where the variable isn't live.
fn store(
    alloc: Global,
    wanted: bool,
    variable: u32,
    register: u32,
    plain: bool,
    steps: Steps,
) -> Result<Steps, NoMemory>
    ensures value { (s : sets.Variables) → wanted ≡ sets.has s variable → IfOk result (λ all. all ≡ spec.store variable s register plain ++ steps) }
{
    if wanted {
        return does(Instr::Move(variable, register), steps);
    }
    release_unless(alloc, plain, register, steps)
}

/// The value of a variable: where the variable is live behind, it comes straight into its register
/// if it may.
fn set(
    alloc: Global,
    context: &Context,
    variable: u32,
    value: &Expr,
    free: u32,
    behind: Made,
) -> Result<Made, NoMemory>
    ensures value { IfOk result (λ m. m.steps ≡ spec.set context.now variable (seen_expr value.now) behind.live free ++ behind.steps) }
    ensures live { IfOk result (λ m. m.live ≡ lives.before (seen_expr value.now) (sets.without behind.live variable)) }
{
    let Made { mut live, steps } = behind;
    let wanted = live.has(variable);
    live.remove(variable)?;
    if wanted && is_straight(value, &live) {
        let behind = Made { live, steps };
        return into(alloc, context, value, free, variable, behind);
    }
    let steps = store(alloc, wanted, variable, free, is_plain(value), steps)?;
    code(alloc, context, value, free, Made { live, steps })
}

pub fn declare(
    alloc: Global,
    context: &Context,
    variable: u32,
    value: &Option<Expr>,
    free: u32,
    behind: Made,
) -> Result<Made, NoMemory>
    ensures value { IfOk result (λ m. m.steps ≡ spec.declare context.now variable (seen_option value.now) behind.live free ++ behind.steps) }
    ensures live { IfOk result (λ m. m.live ≡ lives.declare_live variable (seen_option value.now) behind.live) }
{
    match value {
        None => Ok(behind),
        Some(expr) => set(alloc, context, variable, expr, free, behind),
    }
}

pub fn assign(
    alloc: Global,
    context: &Context,
    variable: u32,
    path: &[PathStep],
    value: &Expr,
    free: u32,
    behind: Made,
) -> Result<Made, NoMemory>
    ensures value { IfOk result (λ m. m.steps ≡ spec.assign context.now variable (map seen_step path.now) (seen_expr value.now) behind.live free ++ behind.steps) }
    ensures live { IfOk result (λ m. m.live ≡ lives.assign_live variable (map seen_step path.now) (seen_expr value.now) behind.live) }
{
    match path {
        [] => set(alloc, context, variable, value, free, behind),
        [_, ..] => update(alloc, context, variable, path, value, free, behind),
    }
}

/// A call as a statement: its arguments, the call, and its result is released.
pub fn call(
    alloc: Global,
    context: &Context,
    routine: u32,
    args: &[Expr],
    free: u32,
    behind: Made,
) -> Result<Made, NoMemory>
    ensures value { IfOk result (λ m. m.steps ≡ spec.call context.now routine (exprs_of (seen_exprs args.now)) behind.live free ++ behind.steps) }
    ensures live { IfOk result (λ m. m.live ≡ lives.before_all (exprs_of (seen_exprs args.now)) behind.live) }
{
    let behind = call_step(alloc, context, routine, args.len(), free, behind)?;
    codes(alloc, context, args, free, behind)
}

/// A call on the arguments in so many registers, whose result is released.
fn call_step(
    alloc: Global,
    context: &Context,
    routine: u32,
    count: usize,
    free: u32,
    behind: Made,
) -> Result<Made, NoMemory>
    ensures value { IfOk result (λ m. m.steps ≡ spec.call_step (tables.target context.now.results routine) routine free count ++ behind.steps) }
    ensures live { IfOk result (λ m. m.live ≡ behind.live) }
{
    match called(context.results.as_slice(), routine) {
        Target::Declared(gives) => {
            let arguments = registers_from(alloc, free, count)?;
            let behind = release_unless_none(alloc, gives, free, behind)?;
            plain(Instr::Call(free, routine, arguments), behind)
        }
        Target::Prints => {
            let behind = release_unless_none(alloc, true, free, behind)?;
            plain(Instr::Print(free), behind)
        }
        Target::PrintsInt => plain(Instr::PrintInt(free), behind),
        Target::Nothing => Ok(behind),
    }
}

/// A register is released where there is something to release.
fn release_unless_none(
    alloc: Global,
    some: bool,
    register: u32,
    behind: Made,
) -> Result<Made, NoMemory>
    ensures value { IfOk result (λ m. m.steps ≡ spec.release_where some register ++ behind.steps) }
    ensures live { IfOk result (λ m. m.live ≡ behind.live) }
{
    let Made { live, steps } = behind;
    if some {
        let steps = clear_one(alloc, register, steps)?;
        return Ok(Made { live, steps });
    }
    Ok(Made { live, steps })
}

pub fn give(
    alloc: Global,
    context: &Context,
    value: &Option<Expr>,
    free: u32,
    behind: Made,
) -> Result<Made, NoMemory>
    ensures value { IfOk result (λ m. m.steps ≡ spec.give context.now (seen_option value.now) free ++ behind.steps) }
    ensures live { IfOk result (λ m. m.live ≡ lives.return_live (seen_option value.now)) }
{
    match value {
        None => gives_null(alloc, free, behind),
        Some(expr) => {
            let live = Variables::none(alloc);
            let steps = does(Instr::Return(free), behind.steps)?;
            code(alloc, context, expr, free, Made { live, steps })
        }
    }
}

/// Null is given.
pub fn gives_null(alloc: Global, free: u32, behind: Made) -> Result<Made, NoMemory>
    ensures value { IfOk result (λ m. m.steps ≡ spec.gives_null free ++ behind.steps) }
    ensures live { IfOk result (λ m. m.live ≡ []) }
{
    let steps = does(Instr::Return(free), behind.steps)?;
    let steps = does(Instr::Const(free, Scalar::Null), steps)?;
    Ok(Made {
        live: Variables::none(alloc),
        steps,
    })
}
