//! Clauses of a property, made once more for a use of it.
ghost use Rattle.std.specs.Prelude.{◌≡◌, ◌+◌, ◌-◌, IfOk};
ghost use Rattle.wy_core.specs.CoreSeen.{seen_expr, seen_exprs, seen_fields};
ghost use Rattle.wy_core.specs.CoreTree.{exprs_of};
ghost use Rattle.wy_core_build.specs.Instances as spec;

use crate::expressions::{
    binary, call, denied, field, index, int, is, len, list, neg, null, quant, record, repeat,
    truth, var,
};
use std::alloc::{AllocError, Global};
use wy_core::{Expr, ExprKind, Op};
use wy_data::Name;
use wy_items::{Boxed, Items};

/// The clause once more, all its nodes at the place of the use: each parameter is its argument, a copy
/// of it with its own places, and the other variables have new numbers, from `base` on. A variable that
/// would pass 2^32 - 1 is answered as want of memory. Linear in the size of what is made.
#[cycle(instance)]
pub fn instance(
    alloc: Global,
    clause: &Expr,
    at: u32,
    args: &[Expr],
    base: u32,
) -> Result<Expr, AllocError>
    ensures value { IfOk result (λ e. seen_expr e ≡ spec.instance_of at (seen_exprs args.now) base (seen_expr clause.now)) }
{
    match &clause.kind {
        ExprKind::Null => Ok(null(at)),
        ExprKind::Bool(value) => Ok(truth(at, *value)),
        ExprKind::Int(number) => Ok(int(at, *number)),
        ExprKind::Var(number) => variable(alloc, at, args, base, *number),
        ExprKind::Call(routine, parts) => Ok(call(
            at,
            *routine,
            instances(alloc, parts.as_slice(), at, args, base)?,
        )),
        ExprKind::Neg(a) => Ok(neg(at, boxed(alloc, a, at, args, base)?)),
        ExprKind::Not(a) => Ok(denied(at, boxed(alloc, a, at, args, base)?)),
        ExprKind::Len(a) => Ok(len(at, boxed(alloc, a, at, args, base)?)),
        ExprKind::Binary(_, _, _) => several(alloc, clause, at, args, base),
        ExprKind::Is(a, ty) => Ok(is(at, boxed(alloc, a, at, args, base)?, ty.copy(alloc)?)),
        ExprKind::Index(_, _) => several(alloc, clause, at, args, base),
        ExprKind::Field(a, name) => Ok(field(
            at,
            boxed(alloc, a, at, args, base)?,
            name.copy(alloc)?,
        )),
        ExprKind::List(items) => Ok(list(at, instances(alloc, items.as_slice(), at, args, base)?)),
        ExprKind::Repeat(_, _) => several(alloc, clause, at, args, base),
        ExprKind::Record(fields) => Ok(record(
            at,
            instance_fields(alloc, fields.as_slice(), at, args, base)?,
        )),
        ExprKind::Quant(_, _, _, _, _) => several(alloc, clause, at, args, base),
    }
}

/// The same for an operator between two operands, an index, a repeated item and a quantifier; `null` for
/// other clauses.
#[cycle(instance)]
fn several(
    alloc: Global,
    clause: &Expr,
    at: u32,
    args: &[Expr],
    base: u32,
) -> Result<Expr, AllocError>
    ensures value { IfOk result (λ e. seen_expr e ≡ spec.several at (seen_exprs args.now) base (seen_expr clause.now)) }
{
    match &clause.kind {
        ExprKind::Null => Ok(null(at)),
        ExprKind::Bool(_) => Ok(null(at)),
        ExprKind::Int(_) => Ok(null(at)),
        ExprKind::Var(_) => Ok(null(at)),
        ExprKind::Call(_, _) => Ok(null(at)),
        ExprKind::Neg(_) => Ok(null(at)),
        ExprKind::Not(_) => Ok(null(at)),
        ExprKind::Len(_) => Ok(null(at)),
        ExprKind::Binary(op, a, b) => Ok(binary(
            at,
            *op,
            boxed(alloc, a, at, args, base)?,
            boxed(alloc, b, at, args, base)?,
        )),
        ExprKind::Is(_, _) => Ok(null(at)),
        ExprKind::Index(a, b) => Ok(index(
            at,
            boxed(alloc, a, at, args, base)?,
            boxed(alloc, b, at, args, base)?,
        )),
        ExprKind::Field(_, _) => Ok(null(at)),
        ExprKind::List(_) => Ok(null(at)),
        ExprKind::Repeat(a, b) => Ok(repeat(
            at,
            boxed(alloc, a, at, args, base)?,
            boxed(alloc, b, at, args, base)?,
        )),
        ExprKind::Record(_) => Ok(null(at)),
        ExprKind::Quant(all, number, from, to, body) => Ok(quant(
            at,
            *all,
            renumbered(args, base, *number)?,
            boxed(alloc, from, at, args, base)?,
            boxed(alloc, to, at, args, base)?,
            boxed(alloc, body, at, args, base)?,
        )),
    }
}

/// A part of the clause once more.
#[cycle(instance)]
fn boxed(
    alloc: Global,
    part: &Boxed<Expr>,
    at: u32,
    args: &[Expr],
    base: u32,
) -> Result<Boxed<Expr>, AllocError>
    ensures value { IfOk result (λ e. seen_expr e ≡ spec.instance_of at (seen_exprs args.now) base (seen_expr part.now)) }
{
    Boxed::new(alloc, instance(alloc, part.get(), at, args, base)?)
}

/// A parameter's argument, or another variable by its new number.
fn variable(
    alloc: Global,
    at: u32,
    args: &[Expr],
    base: u32,
    number: u32,
) -> Result<Expr, AllocError>
    ensures value { IfOk result (λ e. seen_expr e ≡ spec.variable at (seen_exprs args.now) base number) }
{
    match args.get(number as usize) {
        None => Ok(var(at, renumbered(args, base, number)?)),
        Some(arg) => arg.copy(alloc),
    }
}

/// The number of a variable that is no parameter.
fn renumbered(args: &[Expr], base: u32, number: u32) -> Result<u32, AllocError>
    ensures value { IfOk result (λ n. n ≡ spec.renumbered (seen_exprs args.now) base number) }
{
    let own = (number as usize).saturating_sub(args.len());
    let new = own.saturating_add(base as usize);
    if new > 4294967295 {
        return Err(AllocError);
    }
    Ok(new as u32)
}

#[cycle(instance)]
fn instances(
    alloc: Global,
    parts: &[Expr],
    at: u32,
    args: &[Expr],
    base: u32,
) -> Result<Items<Expr>, AllocError>
    ensures value { IfOk result (λ made. exprs_of (seen_exprs made) ≡ spec.instances at (seen_exprs args.now) base (exprs_of (seen_exprs parts.now))) }
{
    let mut made = Items::new(alloc);
    for part in parts {
        let next = instance(alloc, part, at, args, base)?;
        made.push(next)?;
    }
    Ok(made)
}

#[cycle(instance)]
fn instance_fields(
    alloc: Global,
    fields: &[(Name, Expr)],
    at: u32,
    args: &[Expr],
    base: u32,
) -> Result<Items<(Name, Expr)>, AllocError>
    ensures value { IfOk result (λ made. seen_fields made ≡ spec.instance_fields at (seen_exprs args.now) base (seen_fields fields.now)) }
{
    let mut made = Items::new(alloc);
    for field in fields {
        let name = field.0.copy(alloc)?;
        let value = instance(alloc, &field.1, at, args, base)?;
        made.push((name, value))?;
    }
    Ok(made)
}

/// The clauses with these arguments, joined by `&&` from the left; `true` where there are none.
pub fn joined(
    alloc: Global,
    clauses: &[Expr],
    at: u32,
    args: &[Expr],
    base: u32,
) -> Result<Expr, AllocError>
    ensures value { IfOk result (λ e. seen_expr e ≡ spec.joined at (seen_exprs args.now) base (seen_exprs clauses.now)) }
{
    let mut made = Boxed::new(alloc, truth(at, true))?;
    let mut is_first = true;
    for clause in clauses {
        let next = Boxed::new(alloc, instance(alloc, clause, at, args, base)?)?;
        if is_first {
            made = next;
        } else {
            made = Boxed::new(alloc, binary(at, Op::And, made, next))?;
        }
        is_first = false;
    }
    Ok(made.into_inner())
}
