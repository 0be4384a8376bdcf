//! Expressions of the core in boxes, in which they wait to become parts of others.
ghost use Rattle.std.specs.Prelude.{◌≡◌, IfOk};
ghost use Rattle.wy_core.specs.CoreSeen.{seen_expr};
ghost use Rattle.wy_core.specs.CoreTree as tree;

use std::alloc::{AllocError, Global};
use wy_core::{Expr, Op};
use wy_core_build::{binary, var};
use wy_items::Boxed;

/// A variable.
pub fn read(alloc: Global, at: u32, variable: u32) -> Result<Boxed<Expr>, AllocError>
    ensures value { IfOk result (λ e. seen_expr e ≡ tree.VarExpr at variable) }
{
    Boxed::new(alloc, var(at, variable))
}

/// An operator between two operands.
pub fn operation(
    alloc: Global,
    at: u32,
    op: Op,
    left: Boxed<Expr>,
    right: Boxed<Expr>,
) -> Result<Boxed<Expr>, AllocError>
    ensures value { IfOk result (λ e. seen_expr e ≡ tree.BinaryExpr at op (seen_expr left) (seen_expr right)) }
{
    Boxed::new(alloc, binary(at, op, left, right))
}

/// An operator between two variables.
pub fn between(
    alloc: Global,
    at: u32,
    op: Op,
    left: u32,
    right: u32,
) -> Result<Boxed<Expr>, AllocError>
    ensures value { IfOk result (λ e. seen_expr e ≡ tree.BinaryExpr at op (tree.VarExpr at left) (tree.VarExpr at right)) }
{
    let first = read(alloc, at, left)?;
    let second = read(alloc, at, right)?;
    operation(alloc, at, op, first, second)
}

/// What a box that may be absent holds.
pub fn unboxed<T>(value: Option<Boxed<T>>) -> Option<T>
    ensures value { result ≡ value }
{
    match value {
        None => None,
        Some(held) => Some(held.into_inner()),
    }
}
