//! The code of a program.
ghost use Rattle.std.specs.Prelude.{◌≡◌, ◌++◌, [], All, IfOk, length, map, max};
ghost use Rattle.wy_core.specs.CoreSeen.{seen_alias, seen_core, seen_decl, seen_expr, seen_exprs, seen_param, seen_routine};
ghost use Rattle.wy_core.specs.CoreTree.{aliases_of, routines_of};
ghost use Rattle.wy_code_spec.specs.compiled.Fields.{HasFields};
ghost use Rattle.wy_code_spec.specs.compiled.Programs as spec;
ghost use Rattle.wy_code_spec.specs.compiled.Ranges.{CallsBelow, IsFramed, IsNamed};
ghost use Rattle.wy_core.specs.formed.Bound.{Bound};
ghost use Rattle.wy_code_spec.specs.compiled.Expressions as expressions;
ghost use Rattle.wy_live.specs.Sets as sets;
ghost use Rattle.wy_value.specs.Shapes.{IsShapes};

use crate::blocks::block_code;
use crate::expressions::code;
use crate::loops::Around;
use crate::made::Made;
use crate::simple::gives_null;
use crate::type_tests::test;
use std::alloc::Global;
use wy_code::pieces::{NoMemory, Steps, clear, does, dropped, next, routine_of, where_true};
use wy_code::{Code, Instr, Routine as Compiled};
use wy_code_spec::tables::{Context, context_of};
use wy_core::{Alias, Core, Decl, Expr, Param, Routine};
use wy_items::Items;
use wy_live::{Variables, nothing};

/// The code of a program. The function or method with the number k has the routine k, and the
/// routines behind these test the declared types, in their order.
///
/// The variable with the number x has the register x, and the registers behind the variables hold
/// what expressions need on the way. The last use of a variable moves it, another one shares; what
/// stops being live where a path begins is released there by one `Clear`. Asserts, invariants and
/// clauses of contracts have no code; a test of a type visits its parts in the order of the
/// semantics. It goes through each node once for its code, and once more for each loop or quantifier
/// around it.
///
/// The frame of each routine has each register that its instructions name, and each jump goes to an
/// instruction of the routine. Each shape and each name of a field that is named by a number stands in
/// the table, which is one that a heap takes where the fields of records rise; each call is one of a
/// routine of the code where the names of the program lead where they should.
pub fn generate(alloc: Global, core: &Core) -> Result<Code, NoMemory>
    ensures value { IfOk result (λ c. c ≡ spec.code_of (seen_core core.now)) }
    ensures frames { IfOk result (λ c. All IsFramed c.routines) }
    ensures named { IfOk result (λ c. All (IsNamed c.shapes) c.routines) }
    ensures calls { Bound (seen_core core.now) → IfOk result (λ c. All (CallsBelow (length c.routines)) c.routines) }
    ensures shapes { HasFields (seen_core core.now) → IfOk result (λ c. IsShapes c.shapes) }
{
    let code = code_of(alloc, core)?;
    Ok(code)
}

/// The same by the definition alone.
fn code_of(alloc: Global, core: &Core) -> Result<Code, NoMemory>
    ensures value { IfOk result (λ c. c ≡ spec.code_of (seen_core core.now)) }
{
    let context = context_of(alloc, core)?;
    let decls = core.decls.as_slice();
    let routines = body_routines(alloc, &context, decls)?;
    let routines = type_routines(alloc, &context, decls, routines)?;
    let Context { table, results: _ } = context;
    Ok(Code {
        shapes: table.into_shapes(alloc)?,
        routines,
    })
}

/// The routines of functions and methods.
fn body_routines(
    alloc: Global,
    context: &Context,
    decls: &[Decl],
) -> Result<Items<Compiled>, NoMemory>
    ensures value { IfOk result (λ r. r ≡ spec.body_routines context.now (routines_of (map seen_decl decls.now))) }
{
    let mut routines = Items::new(alloc);
    for decl in decls {
        match decl {
            Decl::Alias(_) => (),
            Decl::Routine(routine) => routines.push(body_routine(alloc, context, routine)?)?,
        }
    }
    Ok(routines)
}

/// The routines of declared types behind the others.
fn type_routines(
    alloc: Global,
    context: &Context,
    decls: &[Decl],
    others: Items<Compiled>,
) -> Result<Items<Compiled>, NoMemory>
    ensures value { IfOk result (λ r. r ≡ others ++ spec.type_routines context.now (aliases_of (map seen_decl decls.now))) }
{
    let mut routines = others;
    for decl in decls {
        match decl {
            Decl::Alias(alias) => routines.push(type_routine(alloc, context, alias)?)?,
            Decl::Routine(_) => (),
        }
    }
    Ok(routines)
}

fn body_routine(alloc: Global, context: &Context, routine: &Routine) -> Result<Compiled, NoMemory>
    ensures value { IfOk result (λ r. r ≡ spec.body_routine context.now (seen_routine routine.now)) }
{
    let Ok(free) = u32::try_from(routine.variables.len()) else {
        return Err(NoMemory);
    };
    let end = Made {
        live: Variables::none(alloc),
        steps: Steps::none(alloc),
    };
    let end = gives_null(alloc, free, end)?;
    let around = Around {
        ends: nothing(alloc),
        exit: end.steps.len(),
        again: end.steps.len(),
    };
    let made = block_code(alloc, context, routine.body.as_slice(), &around, free, end)?;
    let unused = unused_params(alloc, &made.live, routine.params.as_slice())?;
    let steps = clear(unused, made.steps)?;
    routine_of(alloc, routine.params.len(), steps)
}

/// The parameters that no path uses.
fn unused_params(alloc: Global, live: &Variables, params: &[Param]) -> Result<Items<u32>, NoMemory>
    ensures value { IfOk result (λ u. u ≡ spec.unused_params live.now (map seen_param params.now)) }
{
    let mut unused = Items::new(alloc);
    for param in params {
        if !live.has(param.variable) {
            unused.push(param.variable)?;
        }
    }
    Ok(unused)
}

/// The test of a declared type: its definition, and then its clauses.
fn type_routine(alloc: Global, context: &Context, alias: &Alias) -> Result<Compiled, NoMemory>
    ensures value { IfOk result (λ r. r ≡ spec.type_routine context.now (seen_alias alias.now)) }
{
    let variable = variable_of(alias.variable);
    let Ok(variables) = u32::try_from(alias.variables.len()) else {
        return Err(NoMemory);
    };
    let answer = at_least_one(variables);
    let free = next(answer)?;
    let steps = does(Instr::Return(answer), Steps::none(alloc))?;
    let steps = dropped(alloc, variable, free, steps)?;
    let end = steps.len();
    let clauses = alias.clauses.as_slice();
    let steps = clauses_code(alloc, context, clauses, variable, answer, steps)?;
    let steps = where_true(answer, end, steps)?;
    let steps = test(alloc, context, &alias.ty, variable, answer, free, steps)?;
    let steps = taken(variable, steps)?;
    routine_of(alloc, 1, steps)
}

fn variable_of(variable: Option<u32>) -> u32
    ensures value { result ≡ spec.variable_of variable }
{
    match variable {
        None => 0,
        Some(variable) => variable,
    }
}

fn at_least_one(count: u32) -> u32
    ensures value { result ≡ max 1 count }
{
    if count == 0 { 1 } else { count }
}

/// The argument goes into the variable of the clauses before the others.
fn taken(variable: u32, steps: Steps) -> Result<Steps, NoMemory>
    ensures value { IfOk result (λ s. s ≡ spec.taken variable ++ steps) }
{
    if variable == 0 {
        return Ok(steps);
    }
    does(Instr::Move(variable, 0), steps)
}

/// The clauses of a type, one behind the other up to the first that is false. Each leaves the
/// variable live, which is released behind them.
fn clauses_code(
    alloc: Global,
    context: &Context,
    clauses: &[Expr],
    variable: u32,
    answer: u32,
    steps: Steps,
) -> Result<Steps, NoMemory>
    ensures value { IfOk result (λ s. s ≡ spec.clauses_steps context.now (seen_exprs clauses.now) (sets.with [] variable) answer ++ steps) }
{
    let end = steps.len();
    let mut steps = steps;
    let mut left = clauses.len();
    while left > 0 {
        left -= 1;
        steps = where_true(answer, end, steps)?;
        steps = clause(alloc, context, &clauses[left], variable, answer, steps)?;
    }
    Ok(steps)
}

/// A clause, behind which the variable is live.
fn clause(
    alloc: Global,
    context: &Context,
    clause: &Expr,
    variable: u32,
    answer: u32,
    steps: Steps,
) -> Result<Steps, NoMemory>
    ensures value { IfOk result (λ s. s ≡ expressions.code context.now (seen_expr clause.now) (sets.with [] variable) answer ++ steps) }
{
    let mut live = Variables::none(alloc);
    live.insert(variable)?;
    let made = code(alloc, context, clause, answer, Made { live, steps })?;
    Ok(made.steps)
}
