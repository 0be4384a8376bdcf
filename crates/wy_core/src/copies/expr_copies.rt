//! Copies of expressions.
ghost use Rattle.std.specs.Prelude.{◌≡◌, IfOk};

use crate::expressions::{Expr, ExprKind};
use std::alloc::{AllocError, Global};
use wy_value::{Boxed, Items, Name};

impl Expr {
    /// The same once more, places included, in time linear in its size.
    #[cycle(copy_expr)]
    pub fn copy(&self, alloc: Global) -> Result<Expr, AllocError>
        ensures value { IfOk result (λ copy. copy ≡ self.now) }
    {
        Ok(Expr {
            at: self.at,
            kind: self.kind.copy(alloc)?,
        })
    }
}

impl ExprKind {
    #[cycle(copy_expr)]
    fn copy(&self, alloc: Global) -> Result<ExprKind, AllocError>
        ensures value { IfOk result (λ copy. copy ≡ self.now) }
    {
        match self {
            ExprKind::Null => Ok(ExprKind::Null),
            ExprKind::Bool(truth) => Ok(ExprKind::Bool(*truth)),
            ExprKind::Int(number) => Ok(ExprKind::Int(*number)),
            ExprKind::Var(variable) => Ok(ExprKind::Var(*variable)),
            ExprKind::Call(routine, args) => Ok(ExprKind::Call(
                *routine,
                copy_exprs(alloc, args.as_slice())?,
            )),
            ExprKind::Neg(operand) => Ok(ExprKind::Neg(copy_boxed(alloc, operand)?)),
            ExprKind::Not(operand) => Ok(ExprKind::Not(copy_boxed(alloc, operand)?)),
            ExprKind::Len(operand) => Ok(ExprKind::Len(copy_boxed(alloc, operand)?)),
            ExprKind::Binary(op, left, right) => Ok(ExprKind::Binary(
                *op,
                copy_boxed(alloc, left)?,
                copy_boxed(alloc, right)?,
            )),
            ExprKind::Is(operand, ty) => Ok(ExprKind::Is(
                copy_boxed(alloc, operand)?,
                ty.copy(alloc)?,
            )),
            ExprKind::Index(array, index) => Ok(ExprKind::Index(
                copy_boxed(alloc, array)?,
                copy_boxed(alloc, index)?,
            )),
            ExprKind::Field(record, name) => Ok(ExprKind::Field(
                copy_boxed(alloc, record)?,
                name.copy(alloc)?,
            )),
            ExprKind::List(items) => Ok(ExprKind::List(copy_exprs(alloc, items.as_slice())?)),
            ExprKind::Repeat(item, count) => Ok(ExprKind::Repeat(
                copy_boxed(alloc, item)?,
                copy_boxed(alloc, count)?,
            )),
            ExprKind::Record(fields) => Ok(ExprKind::Record(copy_fields(
                alloc,
                fields.as_slice(),
            )?)),
            ExprKind::Quant(all, variable, from, to, body) => Ok(ExprKind::Quant(
                *all,
                *variable,
                copy_boxed(alloc, from)?,
                copy_boxed(alloc, to)?,
                copy_boxed(alloc, body)?,
            )),
        }
    }
}

#[cycle(copy_expr)]
fn copy_boxed(alloc: Global, expr: &Boxed<Expr>) -> Result<Boxed<Expr>, AllocError>
    ensures value { IfOk result (λ copy. copy ≡ expr.now) }
{
    Boxed::new(alloc, expr.get().copy(alloc)?)
}

/// The same list once more, in time linear in its size.
#[cycle(copy_expr)]
pub fn copy_exprs(alloc: Global, all: &[Expr]) -> Result<Items<Expr>, AllocError>
    ensures value { IfOk result (λ made. made ≡ all.now) }
{
    let mut made = Items::new(alloc);
    for expr in all {
        made.push(expr.copy(alloc)?)?;
    }
    Ok(made)
}

#[cycle(copy_expr)]
fn copy_fields(alloc: Global, all: &[(Name, Expr)]) -> Result<Items<(Name, Expr)>, AllocError>
    ensures value { IfOk result (λ made. made ≡ all.now) }
{
    let mut made = Items::new(alloc);
    for field in all {
        made.push((field.0.copy(alloc)?, field.1.copy(alloc)?))?;
    }
    Ok(made)
}
