//! `switch`, written by the statements of the core.
ghost use Rattle.std.specs.Prelude.{◌≡◌, ◌∷◌, [], true, map, IfOk};
ghost use Rattle.wy_core.specs.CoreSeen.{seen_expr, seen_exprs, seen_stmt};
ghost use Rattle.wy_names_lower.specs.StmtsLowered as lowered;
ghost use Rattle.wy_names_lower.specs.SeenPairs.{seen_arm};

use crate::operands::{operation, read};
use std::alloc::{AllocError, Global};
use wy_core::{Expr, Op, Stmt};
use wy_core_build::{any_ty, declare, if_stmt, truth};
use wy_items::{Boxed, Items};

/// A case: its test and its block.
#[derive(Drop)]
pub struct Arm {
    pub test: Boxed<Expr>,
    pub body: Items<Stmt>,
}

/// `t == c` for each label, joined by `||` from the left. Linear in the labels.
pub fn is_one_of(
    alloc: Global,
    at: u32,
    variable: u32,
    labels: &[Expr],
) -> Result<Boxed<Expr>, AllocError>
    ensures value { IfOk result (λ e. seen_expr e ≡ lowered.is_one_of at variable (seen_exprs labels.now)) }
{
    let mut made = Boxed::new(alloc, truth(at, false))?;
    let mut is_first = true;
    for label in labels {
        let next = equals(alloc, at, variable, label)?;
        made = either(alloc, at, is_first, made, next)?;
        is_first = false;
    }
    Ok(made)
}

/// `t == c`
fn equals(alloc: Global, at: u32, variable: u32, label: &Expr) -> Result<Boxed<Expr>, AllocError>
    ensures value { IfOk result (λ e. seen_expr e ≡ lowered.equals at variable (seen_expr label.now)) }
{
    let tested = read(alloc, at, variable)?;
    let label = Boxed::new(alloc, label.copy(alloc)?)?;
    operation(alloc, at, Op::Equal, tested, label)
}

/// The second behind the first, by `||`; the second alone, where it is the first of all.
fn either(
    alloc: Global,
    at: u32,
    is_first: bool,
    first: Boxed<Expr>,
    second: Boxed<Expr>,
) -> Result<Boxed<Expr>, AllocError>
    ensures value { IfOk result (λ e. seen_expr e ≡ lowered.either at is_first (seen_expr first) (seen_expr second)) }
{
    if is_first {
        Ok(second)
    } else {
        operation(alloc, at, Op::Or, first, second)
    }
}

/// `if` for each case, each in the `else` of the one before it, and the last block in the last `else`.
#[tactic(auto, using(crate::proofs::PopLemmas::chain_last))]
fn chain(
    alloc: Global,
    at: u32,
    arms: Items<Arm>,
    last: Items<Stmt>,
) -> Result<Items<Stmt>, AllocError>
    ensures value { IfOk result (λ made. map seen_stmt made ≡ lowered.chain at (map seen_arm arms) (map seen_stmt last)) }
{
    let mut arms = arms;
    let mut made = last;
    while let Some(arm) = arms.pop() {
        made = choice(alloc, at, arm, made)?;
    }
    Ok(made)
}

/// The case, and these statements in its `else`.
fn choice(alloc: Global, at: u32, arm: Arm, other: Items<Stmt>) -> Result<Items<Stmt>, AllocError>
    ensures value { IfOk result (λ made. map seen_stmt made ≡ lowered.choice at (seen_arm arm) (map seen_stmt other)) }
{
    let Arm { test, body } = arm;
    one(alloc, if_stmt(at, test.into_inner(), body, other))
}

/// One statement.
pub fn one(alloc: Global, stmt: Stmt) -> Result<Items<Stmt>, AllocError>
    ensures value { IfOk result (λ made. map seen_stmt made ≡ lowered.alone (seen_stmt stmt)) }
{
    let mut made = Items::new(alloc);
    made.push(stmt)?;
    Ok(made)
}

/// `t = e` and the chain of the cases.
pub fn switched(
    alloc: Global,
    at: u32,
    variable: u32,
    value: Boxed<Expr>,
    arms: Items<Arm>,
    last: Items<Stmt>,
) -> Result<Items<Stmt>, AllocError>
    ensures value { IfOk result (λ made. map seen_stmt made ≡ lowered.switched at variable (seen_expr value) (map seen_arm arms) (map seen_stmt last)) }
{
    let start = declare(at, any_ty(at), variable, Some(value.into_inner()));
    let mut made = one(alloc, start)?;
    let rest = chain(alloc, at, arms, last)?;
    made.append(rest)?;
    Ok(made)
}
