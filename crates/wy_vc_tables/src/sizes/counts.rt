//! How many expressions there are.
ghost use Rattle.std.specs.Prelude.{◌≡◌, ◌+◌, map, IfOk};
ghost use Rattle.wy_core.specs.CoreSeen.{seen_block, seen_expr, seen_exprs, seen_fields, seen_option, seen_step, seen_stmt};
ghost use Rattle.wy_core.specs.CoreTree.{exprs_of};
ghost use Rattle.wy_vc_spec.specs.Sizes as spec;

use std::alloc::AllocError;
use wy_core::{Expr, ExprKind, Step, StepKind, Stmt, StmtKind};
use wy_data::Name;

/// The sum of two counts. One that is too large is want of memory.
pub fn total(a: usize, b: usize) -> Result<usize, AllocError>
    ensures value { IfOk result (λ n. n ≡ a + b) }
{
    match a.checked_add(b) {
        None => Err(AllocError),
        Some(sum) => Ok(sum),
    }
}

// One more.
fn with_one(a: usize) -> Result<usize, AllocError>
    ensures value { IfOk result (λ n. n ≡ 1 + a) }
{
    total(1, a)
}

// One more than both.
fn with_two(a: usize, b: usize) -> Result<usize, AllocError>
    ensures value { IfOk result (λ n. n ≡ 1 + a + b) }
{
    let one = with_one(a)?;
    total(one, b)
}

// One more than all three.
fn with_three(a: usize, b: usize, c: usize) -> Result<usize, AllocError>
    ensures value { IfOk result (λ n. n ≡ 1 + a + b + c) }
{
    let two = with_two(a, b)?;
    total(two, c)
}

/// How many expressions stand in this one, with itself. Linear in them.
#[cycle(sizes)]
pub fn exprs_in(expr: &Expr) -> Result<usize, AllocError>
    ensures value { IfOk result (λ n. n ≡ spec.exprs_in (seen_expr expr.now)) }
{
    match &expr.kind {
        ExprKind::Null => Ok(1),
        ExprKind::Bool(_) => Ok(1),
        ExprKind::Int(_) => Ok(1),
        ExprKind::Var(_) => Ok(1),
        ExprKind::Call(_, args) => with_one(exprs_in_all(args.as_slice())?),
        ExprKind::Neg(a) => with_one(exprs_in(a.get())?),
        ExprKind::Not(a) => with_one(exprs_in(a.get())?),
        ExprKind::Len(a) => with_one(exprs_in(a.get())?),
        ExprKind::Binary(_, a, b) => with_two(exprs_in(a.get())?, exprs_in(b.get())?),
        ExprKind::Is(a, _) => with_one(exprs_in(a.get())?),
        ExprKind::Index(a, b) => with_two(exprs_in(a.get())?, exprs_in(b.get())?),
        ExprKind::Field(a, _) => with_one(exprs_in(a.get())?),
        ExprKind::List(items) => with_one(exprs_in_all(items.as_slice())?),
        ExprKind::Repeat(a, b) => with_two(exprs_in(a.get())?, exprs_in(b.get())?),
        ExprKind::Record(fields) => exprs_in_record(fields.as_slice()),
        ExprKind::Quant(_, _, a, b, c) => with_three(
            exprs_in(a.get())?,
            exprs_in(b.get())?,
            exprs_in(c.get())?,
        ),
    }
}

/// How many expressions stand in these.
#[cycle(sizes)]
pub fn exprs_in_all(exprs: &[Expr]) -> Result<usize, AllocError>
    ensures value { IfOk result (λ n. n ≡ spec.exprs_in_all (exprs_of (seen_exprs exprs.now))) }
{
    let mut count = 0;
    for expr in exprs {
        count = total(count, exprs_in(expr)?)?;
    }
    Ok(count)
}

// A record of these fields.
#[cycle(sizes)]
fn exprs_in_record(fields: &[(Name, Expr)]) -> Result<usize, AllocError>
    ensures value { IfOk result (λ n. n ≡ 1 + spec.exprs_in_fields (seen_fields fields.now)) }
{
    with_one(exprs_in_fields(fields)?)
}

#[cycle(sizes)]
fn exprs_in_fields(fields: &[(Name, Expr)]) -> Result<usize, AllocError>
    ensures value { IfOk result (λ n. n ≡ spec.exprs_in_fields (seen_fields fields.now)) }
{
    let mut count = 0;
    for field in fields {
        count = total(count, exprs_in(&field.1)?)?;
    }
    Ok(count)
}

/// How many expressions stand in clauses.
pub fn exprs_in_list(exprs: &[Expr]) -> Result<usize, AllocError>
    ensures value { IfOk result (λ n. n ≡ spec.exprs_in_list (seen_exprs exprs.now)) }
{
    let mut count = 0;
    for expr in exprs {
        count = total(count, exprs_in(expr)?)?;
    }
    Ok(count)
}

fn exprs_in_option(expr: &Option<Expr>) -> Result<usize, AllocError>
    ensures value { IfOk result (λ n. n ≡ spec.exprs_in_option (seen_option expr.now)) }
{
    match expr {
        None => Ok(0),
        Some(expr) => exprs_in(expr),
    }
}

// The count, and the expressions in a step of a path.
fn with_step(count: usize, step: &Step) -> Result<usize, AllocError>
    ensures value { IfOk result (λ n. n ≡ count + spec.exprs_in_step (seen_step step.now)) }
{
    match &step.kind {
        StepKind::Index(index) => total(count, exprs_in(index)?),
        StepKind::Field(_) => Ok(count),
    }
}

fn exprs_in_path(path: &[Step]) -> Result<usize, AllocError>
    ensures value { IfOk result (λ n. n ≡ spec.exprs_in_path (map seen_step path.now)) }
{
    let mut count = 0;
    for step in path {
        count = with_step(count, step)?;
    }
    Ok(count)
}

// The expressions of a path and a value.
fn exprs_in_assignment(path: &[Step], value: &Expr) -> Result<usize, AllocError>
    ensures value { IfOk result (λ n. n ≡ spec.exprs_in_path (map seen_step path.now) + spec.exprs_in (seen_expr value.now)) }
{
    let before = exprs_in_path(path)?;
    let last = exprs_in(value)?;
    total(before, last)
}

// The expressions of a test, of clauses and of a block.
fn three(a: usize, b: usize, c: usize) -> Result<usize, AllocError>
    ensures value { IfOk result (λ n. n ≡ a + b + c) }
{
    let two = total(a, b)?;
    total(two, c)
}

/// How many expressions stand in a statement.
#[cycle(block_sizes)]
pub fn exprs_in_stmt(stmt: &Stmt) -> Result<usize, AllocError>
    ensures value { IfOk result (λ n. n ≡ spec.exprs_in_stmt (seen_stmt stmt.now)) }
{
    match &stmt.kind {
        StmtKind::Declare(_, _, value) => exprs_in_option(value),
        StmtKind::Assign(_, path, value) => exprs_in_assignment(path.as_slice(), value),
        StmtKind::Call(_, args) => exprs_in_all(args.as_slice()),
        StmtKind::Return(value) => exprs_in_option(value),
        StmtKind::Assert(test) => exprs_in(test),
        StmtKind::Break => Ok(0),
        StmtKind::Continue => Ok(0),
        StmtKind::Skip => Ok(0),
        StmtKind::Fail => Ok(0),
        StmtKind::If(test, first, second) => {
            let test = exprs_in(test)?;
            let first = exprs_in_block(first.as_slice())?;
            let second = exprs_in_block(second.as_slice())?;
            three(test, first, second)
        }
        StmtKind::While(test, invariants, body) => {
            let test = exprs_in(test)?;
            let clauses = exprs_in_list(invariants.as_slice())?;
            let body = exprs_in_block(body.as_slice())?;
            three(test, clauses, body)
        }
    }
}

/// How many expressions stand in a block.
#[cycle(block_sizes)]
pub fn exprs_in_block(block: &[Stmt]) -> Result<usize, AllocError>
    ensures value { IfOk result (λ n. n ≡ spec.exprs_in_block (seen_block block.now)) }
{
    let mut count = 0;
    for stmt in block {
        count = total(count, exprs_in_stmt(stmt)?)?;
    }
    Ok(count)
}
