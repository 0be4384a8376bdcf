//! `do` and `for`, written by the statements of the core.
ghost use Rattle.std.specs.Prelude.{◌≡◌, ◌++◌, map, pos, IfOk};
ghost use Rattle.wy_core.specs.CoreSeen.{seen_expr, seen_exprs, seen_stmt};
ghost use Rattle.wy_core.specs.CoreTree as tree;
ghost use Rattle.wy_core.specs.declared.expressions.Op.TheVariants as core_op;
ghost use Rattle.wy_names_lower.specs.StmtsLowered as lowered;
ghost use Rattle.wy_names_lower.specs.SeenSpans.{seen_span};

use crate::choices::one;
use crate::operands::{between, operation, read};
use std::alloc::{AllocError, Global};
use wy_core::{Expr, Op, Stmt};
use wy_core_build::{assign, bool_ty, declare, int, int_ty, truth, var, while_stmt};
use wy_items::{Boxed, Items};

/// `first || e`
pub fn behind_first(
    alloc: Global,
    at: u32,
    first: u32,
    expr: Boxed<Expr>,
) -> Result<Boxed<Expr>, AllocError>
    ensures value { IfOk result (λ e. seen_expr e ≡ lowered.behind_first at first (seen_expr expr)) }
{
    let is_first = read(alloc, at, first)?;
    operation(alloc, at, Op::Or, is_first, expr)
}

/// `first = true; while first || c where first || v: first = false; B`, where `first ||` stands in the
/// test and the invariants already.
pub fn repeated(
    alloc: Global,
    at: u32,
    first: u32,
    test: Boxed<Expr>,
    invariants: Items<Expr>,
    body: Items<Stmt>,
) -> Result<Items<Stmt>, AllocError>
    ensures value { IfOk result (λ made. map seen_stmt made ≡ lowered.repeated_behind at first (seen_expr test) (seen_exprs invariants) (map seen_stmt body)) }
{
    let start = declare(at, bool_ty(at), first, Some(truth(at, true)));
    let mut made = one(alloc, start)?;
    let done = assign(at, first, Items::new(alloc), truth(at, false));
    let mut turn = one(alloc, done)?;
    turn.append(body)?;
    made.push(while_stmt(at, test.into_inner(), invariants, turn))?;
    Ok(made)
}

/// The variables of a `for`: its ends, the one that counts, and its own.
#[derive(Clone, Copy)]
pub struct Span {
    pub lo: u32,
    pub hi: u32,
    pub t: u32,
    pub i: u32,
}

/// `i = t; t = t + 1`, where i is declared.
fn next_turn(alloc: Global, at: u32, span: Span) -> Result<Items<Stmt>, AllocError>
    ensures value { IfOk result (λ made. map seen_stmt made ≡ lowered.next_turn at (seen_span span)) }
{
    let start = declare(at, int_ty(at), span.i, Some(var(at, span.t)));
    let mut made = one(alloc, start)?;
    let next = one_more(alloc, at, span.t)?;
    made.push(assign(at, span.t, Items::new(alloc), next.into_inner()))?;
    Ok(made)
}

/// `t + 1`
fn one_more(alloc: Global, at: u32, variable: u32) -> Result<Boxed<Expr>, AllocError>
    ensures value { IfOk result (λ e. seen_expr e ≡ tree.BinaryExpr at core_op.Add (tree.VarExpr at variable) (tree.IntExpr at (pos 1))) }
{
    let before = read(alloc, at, variable)?;
    let step = Boxed::new(alloc, int(at, 1))?;
    operation(alloc, at, Op::Add, before, step)
}

/// `lo <= t` and `t <= hi || hi < lo`
fn bounds(alloc: Global, at: u32, span: Span) -> Result<Items<Expr>, AllocError>
    ensures value { IfOk result (λ made. seen_exprs made ≡ lowered.bounds at (seen_span span)) }
{
    let mut made = Items::new(alloc);
    let above = between(alloc, at, Op::LessEqual, span.lo, span.t)?;
    made.push(above.into_inner())?;
    let within = between(alloc, at, Op::LessEqual, span.t, span.hi)?;
    let empty = between(alloc, at, Op::Less, span.hi, span.lo)?;
    let below = operation(alloc, at, Op::Or, within, empty)?;
    made.push(below.into_inner())?;
    Ok(made)
}

/// `lo = a; hi = b; t = lo`
fn starts(
    alloc: Global,
    at: u32,
    span: Span,
    from: Boxed<Expr>,
    to: Boxed<Expr>,
) -> Result<Items<Stmt>, AllocError>
    ensures value { IfOk result (λ made. map seen_stmt made ≡ lowered.starts at (seen_span span) (seen_expr from) (seen_expr to)) }
{
    let lo = declare(at, int_ty(at), span.lo, Some(from.into_inner()));
    let mut made = one(alloc, lo)?;
    let hi = declare(at, int_ty(at), span.hi, Some(to.into_inner()));
    made.push(hi)?;
    let t = declare(at, int_ty(at), span.t, Some(var(at, span.lo)));
    made.push(t)?;
    Ok(made)
}

/// `while t < hi where lo <= t where t <= hi || hi < lo where v': i = t; t = t + 1; B`, with v' being
/// the loop's own invariants.
fn turns(
    alloc: Global,
    at: u32,
    span: Span,
    own: Items<Expr>,
    body: Items<Stmt>,
) -> Result<Stmt, AllocError>
    ensures value { IfOk result (λ s. seen_stmt s ≡ lowered.turns at (seen_span span) (seen_exprs own) (map seen_stmt body)) }
{
    let test = between(alloc, at, Op::Less, span.t, span.hi)?;
    let mut invariants = bounds(alloc, at, span)?;
    invariants.append(own)?;
    let mut turn = next_turn(alloc, at, span)?;
    turn.append(body)?;
    Ok(while_stmt(at, test.into_inner(), invariants, turn))
}

/// The whole of a `for`.
pub fn counted(
    alloc: Global,
    at: u32,
    span: Span,
    from: Boxed<Expr>,
    to: Boxed<Expr>,
    own: Items<Expr>,
    body: Items<Stmt>,
) -> Result<Items<Stmt>, AllocError>
    ensures value { IfOk result (λ made. map seen_stmt made ≡ lowered.counted at (seen_span span) (seen_expr from) (seen_expr to) (seen_exprs own) (map seen_stmt body)) }
{
    let mut made = starts(alloc, at, span, from, to)?;
    let repeat = turns(alloc, at, span, own, body)?;
    made.push(repeat)?;
    Ok(made)
}
