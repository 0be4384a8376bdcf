//! The code of expressions.
ghost use Rattle.std.specs.Prelude.{◌≡◌, ◌++◌, IfOk};
ghost use Rattle.wy_core.specs.CoreSeen.{seen_expr, seen_exprs, seen_fields};
ghost use Rattle.wy_core.specs.CoreTree.{exprs_of};
ghost use Rattle.wy_code_spec.specs.compiled.Expressions as spec;
ghost use Rattle.wy_code_spec.specs.compiled.Operands as operands;
ghost use Rattle.wy_code_spec.specs.compiled.Straight as straight;
ghost use Rattle.wy_live.specs.Walks as lives;

use crate::calls::{call, tested, tested_read};
use crate::made::{Made, is_plain, plain, previous, register_at, used};
use crate::operands::{
    first_read, in_place, plain_or_read, read, second_read, standing, variable_in,
};
use crate::operators::{begin_and, end_and, end_or, operator};
use crate::quantifiers::{Begun, begin_quantifier, end_quantifier};
use std::alloc::Global;
use wy_code::pieces::{NoMemory, next, registers_from};
use wy_code::{Arithmetic, Instr, Scalar};
use wy_code_spec::tables::{Context, name_number, shape_number};
use wy_core::{Expr, ExprKind, Op};
use wy_data::Name;

/// The code of an expression before the code behind it, and what is live before it. The value comes
/// into the register, and those behind it are free. It goes through each node once, and once more
/// for each quantifier, and each right side of `&&`, around it.
#[cycle(code)]
pub fn code(
    alloc: Global,
    context: &Context,
    expr: &Expr,
    register: u32,
    behind: Made,
) -> Result<Made, NoMemory>
    ensures value { IfOk result (λ m. m.steps ≡ spec.code context.now (seen_expr expr.now) behind.live register ++ behind.steps) }
    ensures live { IfOk result (λ m. m.live ≡ lives.before (seen_expr expr.now) behind.live) }
{
    into(alloc, context, expr, register, register, behind)
}

/// The same, where the value of a straight expression comes into the register `target`. What else
/// stands in registers is free from `register` on.
#[cycle(code)]
pub fn into(
    alloc: Global,
    context: &Context,
    expr: &Expr,
    register: u32,
    target: u32,
    behind: Made,
) -> Result<Made, NoMemory>
    ensures value { IfOk result (λ m. m.steps ≡ straight.into context.now (seen_expr expr.now) behind.live register target ++ behind.steps) }
    ensures live { IfOk result (λ m. m.live ≡ lives.before (seen_expr expr.now) behind.live) }
{
    match &expr.kind {
        ExprKind::Null => plain(Instr::Const(target, Scalar::Null), behind),
        ExprKind::Bool(truth) => plain(Instr::Const(target, Scalar::Bool(*truth)), behind),
        ExprKind::Int(number) => plain(Instr::Const(target, Scalar::Int(*number)), behind),
        ExprKind::Var(variable) => used(*variable, target, behind),
        ExprKind::Call(routine, args) => {
            let behind = call(alloc, context, *routine, register, args.len(), behind)?;
            codes(alloc, context, args.as_slice(), register, behind)
        }
        ExprKind::Neg(operand) => {
            let operand = operand.get();
            let place = variable_in(operand);
            let behind = negated(register, target, standing(place, register), behind)?;
            operand_code(alloc, context, operand, place, register, behind)
        }
        ExprKind::Not(operand) => {
            let operand = operand.get();
            let place = variable_in(operand);
            let behind = plain(Instr::Not(target, standing(place, register)), behind)?;
            operand_code(alloc, context, operand, place, register, behind)
        }
        ExprKind::Len(operand) => {
            let operand = operand.get();
            let place = read(operand, &behind.live);
            let behind = plain(Instr::Len(target, standing(place, register)), behind)?;
            operand_code(alloc, context, operand, place, register, behind)
        }
        ExprKind::Binary(op, left, right) => {
            let left = left.get();
            let right = right.get();
            let place = first_read(*op, left, right, &behind.live);
            let first = standing(place, register);
            let behind = right_side(alloc, context, *op, first, right, register, target, behind)?;
            operand_code(alloc, context, left, place, register, behind)
        }
        ExprKind::Is(operand, ty) => {
            let operand = operand.get();
            let place = tested_read(ty, operand, &behind.live);
            let behind = tested(alloc, context, ty, place, register, behind)?;
            operand_code(alloc, context, operand, place, register, behind)
        }
        ExprKind::Index(array, index) => {
            let array = array.get();
            let index = index.get();
            let whole = read(array, &behind.live);
            let place = variable_in(index);
            let free = next(register)?;
            let item = Instr::Get(target, standing(whole, register), standing(place, free));
            let behind = plain(item, behind)?;
            let behind = operand_code(alloc, context, index, place, free, behind)?;
            operand_code(alloc, context, array, whole, register, behind)
        }
        ExprKind::Field(whole, name) => {
            let whole = whole.get();
            let place = read(whole, &behind.live);
            let number = name_number(name, &context.table)?;
            let part = Instr::Field(target, standing(place, register), number);
            let behind = plain(part, behind)?;
            operand_code(alloc, context, whole, place, register, behind)
        }
        ExprKind::List(items) => {
            let behind = list(alloc, items.len(), register, behind)?;
            codes(alloc, context, items.as_slice(), register, behind)
        }
        ExprKind::Repeat(item, count) => {
            let free = next(register)?;
            let behind = plain(Instr::Fill(register, register, free), behind)?;
            let behind = code(alloc, context, count.get(), free, behind)?;
            code(alloc, context, item.get(), register, behind)
        }
        ExprKind::Record(fields) => {
            let fields = fields.as_slice();
            let behind = record(alloc, context, fields, register, behind)?;
            field_codes(alloc, context, fields, register, behind)
        }
        ExprKind::Quant(all, variable, from, to, body) => {
            let free = next(register)?;
            let body = body.get();
            let behind = quantify(alloc, context, *all, *variable, body, register, behind)?;
            let behind = code(alloc, context, to.get(), free, behind)?;
            code(alloc, context, from.get(), register, behind)
        }
    }
}

/// The code of an operand, of which there is none where it is read in its register: its variable is
/// live before it.
#[cycle(code)]
pub fn operand_code(
    alloc: Global,
    context: &Context,
    expr: &Expr,
    place: Option<u32>,
    register: u32,
    behind: Made,
) -> Result<Made, NoMemory>
    ensures value { IfOk result (λ m. m.steps ≡ operands.unless_read place (spec.code context.now (seen_expr expr.now) behind.live register) ++ behind.steps) }
    ensures live { IfOk result (λ m. m.live ≡ lives.before (seen_expr expr.now) behind.live) }
{
    match place {
        None => code(alloc, context, expr, register, behind),
        Some(_) => in_place(expr, behind),
    }
}

/// The right side of an operator whose left side stands in a register, and the operator. Those of
/// `&&` and `||` come into one register, which is the target of each expression that isn't straight.
#[cycle(code)]
fn right_side(
    alloc: Global,
    context: &Context,
    op: Op,
    left: u32,
    right: &Expr,
    register: u32,
    target: u32,
    behind: Made,
) -> Result<Made, NoMemory>
    ensures value { IfOk result (λ m. m.steps ≡ spec.operate op target left (operands.standing (operands.second_read op (seen_expr right.now) behind.live) (spec.right_register op register)) (operands.unless_read (operands.second_read op (seen_expr right.now) behind.live) (spec.code context.now (seen_expr right.now) behind.live (spec.right_register op register))) (spec.released (lives.before (seen_expr right.now) behind.live) behind.live) (operands.plain_or_read (operands.second_read op (seen_expr right.now) behind.live) (spec.is_plain (seen_expr right.now))) ++ behind.steps) }
    ensures live { IfOk result (λ m. m.live ≡ lives.before (seen_expr right.now) behind.live) }
{
    match op {
        Op::And => {
            let start = begin_and(alloc, right, behind)?;
            let end = start.steps.len();
            let made = code(alloc, context, right, register, start)?;
            end_and(target, end, made)
        }
        Op::Or => {
            let end = behind.steps.len();
            let after = behind.live.copy(alloc)?;
            let made = code(alloc, context, right, register, behind)?;
            end_or(alloc, &after, target, end, made)
        }
        _ => {
            let free = next(register)?;
            let place = second_read(op, right, &behind.live);
            let second = standing(place, free);
            let is_plain = plain_or_read(place, is_plain(right));
            let behind = operator(alloc, op, is_plain, target, left, second, behind)?;
            operand_code(alloc, context, right, place, free, behind)
        }
    }
}

/// Expressions, each into the register behind the one before.
#[cycle(code)]
pub fn codes(
    alloc: Global,
    context: &Context,
    exprs: &[Expr],
    register: u32,
    behind: Made,
) -> Result<Made, NoMemory>
    ensures value { IfOk result (λ m. m.steps ≡ spec.codes context.now (exprs_of (seen_exprs exprs.now)) behind.live register ++ behind.steps) }
    ensures live { IfOk result (λ m. m.live ≡ lives.before_all (exprs_of (seen_exprs exprs.now)) behind.live) }
{
    let mut made = behind;
    let mut left = exprs.len();
    let mut here = register_at(register, left)?;
    while left > 0 {
        left -= 1;
        here = previous(here)?;
        made = code(alloc, context, &exprs[left], here, made)?;
    }
    Ok(made)
}

/// The values of fields, each into the register behind the one before.
#[cycle(code)]
fn field_codes(
    alloc: Global,
    context: &Context,
    fields: &[(Name, Expr)],
    register: u32,
    behind: Made,
) -> Result<Made, NoMemory>
    ensures value { IfOk result (λ m. m.steps ≡ spec.field_codes context.now (seen_fields fields.now) behind.live register ++ behind.steps) }
    ensures live { IfOk result (λ m. m.live ≡ lives.before_fields (seen_fields fields.now) behind.live) }
{
    let mut made = behind;
    let mut left = fields.len();
    let mut here = register_at(register, left)?;
    while left > 0 {
        left -= 1;
        here = previous(here)?;
        let field = &fields[left];
        made = code(alloc, context, &field.1, here, made)?;
    }
    Ok(made)
}

/// The turns of a quantifier.
#[cycle(code)]
fn quantify(
    alloc: Global,
    context: &Context,
    all: bool,
    variable: u32,
    body: &Expr,
    register: u32,
    behind: Made,
) -> Result<Made, NoMemory>
    ensures value { IfOk result (λ m. m.steps ≡ spec.quantify_code context.now all variable (seen_expr body.now) behind.live register ++ behind.steps) }
    ensures live { IfOk result (λ m. m.live ≡ lives.turned variable (seen_expr body.now) behind.live) }
{
    let begun = begin_quantifier(alloc, all, variable, body, register, behind)?;
    let Begun {
        live,
        free,
        done,
        start,
    } = begun;
    let made = code(alloc, context, body, free, start)?;
    end_quantifier(variable, register, live, done, made)
}

/// The number in a register is taken from 0, and what comes of it comes into `target`.
fn negated(register: u32, target: u32, number: u32, behind: Made) -> Result<Made, NoMemory>
    ensures value { IfOk result (λ m. m.steps ≡ straight.negated_into register target number ++ behind.steps) }
    ensures live { IfOk result (λ m. m.live ≡ behind.live) }
{
    let free = next(register)?;
    let behind = plain(Instr::Arith(target, Arithmetic::Sub, free, number), behind)?;
    plain(Instr::Const(free, Scalar::Int(0)), behind)
}

/// An array of the items in so many registers.
fn list(alloc: Global, count: usize, register: u32, behind: Made) -> Result<Made, NoMemory>
    ensures value { IfOk result (λ m. m.steps ≡ spec.list count register ++ behind.steps) }
    ensures live { IfOk result (λ m. m.live ≡ behind.live) }
{
    let parts = registers_from(alloc, register, count)?;
    plain(Instr::Array(register, parts), behind)
}

/// A record of the values in as many registers as there are fields.
fn record(
    alloc: Global,
    context: &Context,
    fields: &[(Name, Expr)],
    register: u32,
    behind: Made,
) -> Result<Made, NoMemory>
    ensures value { IfOk result (λ m. m.steps ≡ spec.record_of context.now (seen_fields fields.now) register ++ behind.steps) }
    ensures live { IfOk result (λ m. m.live ≡ behind.live) }
{
    let shape = shape_number(alloc, fields, &context.table)?;
    let parts = registers_from(alloc, register, fields.len())?;
    plain(Instr::Record(register, shape, parts), behind)
}
