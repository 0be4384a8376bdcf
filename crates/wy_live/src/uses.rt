//! The walk through expressions.
ghost use Rattle.std.specs.Prelude.{◌≡◌, ◌∷◌, false, IfOk, map};
ghost use Rattle.wy_core.specs.CoreSeen.{seen_expr, seen_exprs, seen_fields, seen_step};
ghost use Rattle.wy_core.specs.CoreTree.{exprs_of};
ghost use Rattle.wy_live.specs.LastUses as definition;
ghost use Rattle.wy_live.specs.Sets as sets;
ghost use Rattle.wy_live.specs.Walks as spec;

use crate::sets::Variables;
use crate::walk::{Marks, Walk, with_live};
use std::alloc::{AllocError, Global};
use wy_core::{Expr, ExprKind, Step, StepKind};
use wy_data::Name;

/// What is live before the expression. It goes through each node once.
#[cycle(before)]
pub fn before(expr: &Expr, live: Variables) -> Result<Variables, AllocError>
    ensures value { IfOk result (λ s. s ≡ spec.before (seen_expr expr.now) live) }
{
    match &expr.kind {
        ExprKind::Null => Ok(live),
        ExprKind::Bool(_) => Ok(live),
        ExprKind::Int(_) => Ok(live),
        ExprKind::Var(variable) => with(*variable, live),
        ExprKind::Call(_, args) => before_all(args.as_slice(), live),
        ExprKind::Neg(operand) => before(operand.get(), live),
        ExprKind::Not(operand) => before(operand.get(), live),
        ExprKind::Len(operand) => before(operand.get(), live),
        ExprKind::Binary(_, left, right) => {
            let live = before(right.get(), live)?;
            before(left.get(), live)
        }
        ExprKind::Is(operand, _) => before(operand.get(), live),
        ExprKind::Index(array, index) => {
            let live = before(index.get(), live)?;
            before(array.get(), live)
        }
        ExprKind::Field(whole, _) => before(whole.get(), live),
        ExprKind::List(items) => before_all(items.as_slice(), live),
        ExprKind::Repeat(item, count) => {
            let live = before(count.get(), live)?;
            before(item.get(), live)
        }
        ExprKind::Record(fields) => before_fields(fields.as_slice(), live),
        ExprKind::Quant(_, variable, from, to, body) => {
            let live = turned(*variable, body.get(), live)?;
            let live = before(to.get(), live)?;
            before(from.get(), live)
        }
    }
}

/// What is live behind the body of a quantifier, where this is live behind the quantifier.
#[cycle(before)]
pub fn turned(variable: u32, body: &Expr, live: Variables) -> Result<Variables, AllocError>
    ensures value { IfOk result (λ s. s ≡ spec.turned variable (seen_expr body.now) live) }
{
    let held = live.has(variable);
    let mut live = before(body, live)?;
    live.restore(variable, held)?;
    Ok(live)
}

/// The same of expressions, one behind the other.
#[cycle(before)]
pub fn before_all(exprs: &[Expr], live: Variables) -> Result<Variables, AllocError>
    ensures value { IfOk result (λ s. s ≡ spec.before_all (exprs_of (seen_exprs exprs.now)) live) }
{
    let mut live = live;
    let mut left = exprs.len();
    while left > 0 {
        left -= 1;
        live = before(&exprs[left], live)?;
    }
    Ok(live)
}

/// The same of the values of fields.
#[cycle(before)]
pub fn before_fields(fields: &[(Name, Expr)], live: Variables) -> Result<Variables, AllocError>
    ensures value { IfOk result (λ s. s ≡ spec.before_fields (seen_fields fields.now) live) }
{
    let mut live = live;
    let mut left = fields.len();
    while left > 0 {
        left -= 1;
        live = before(&fields[left].1, live)?;
    }
    Ok(live)
}

fn with(variable: u32, live: Variables) -> Result<Variables, AllocError>
    ensures value { IfOk result (λ s. s ≡ sets.with live variable) }
{
    let mut live = live;
    live.insert(variable)?;
    Ok(live)
}

/// What is live before the steps of a path.
pub fn before_steps(path: &[Step], live: Variables) -> Result<Variables, AllocError>
    ensures value { IfOk result (λ s. s ≡ spec.before_steps (map seen_step path.now) live) }
{
    let mut live = live;
    let mut left = path.len();
    while left > 0 {
        left -= 1;
        live = before_step(&path[left], live)?;
    }
    Ok(live)
}

fn before_step(step: &Step, live: Variables) -> Result<Variables, AllocError>
    ensures value { IfOk result (λ s. s ≡ spec.before_step (seen_step step.now) live) }
{
    match &step.kind {
        StepKind::Index(index) => before(index, live),
        StepKind::Field(_) => Ok(live),
    }
}

/// From behind the expression to before it, with the marks of its uses. It goes through each node
/// once, and once more for each quantifier around it; each quantifier copies what is live.
#[cycle(mark)]
pub fn mark(alloc: Global, expr: &Expr, walk: Walk) -> Result<Walk, AllocError>
    ensures value { IfOk result (λ w. w ≡ spec.marked (seen_expr expr.now) walk) }
{
    match &expr.kind {
        ExprKind::Null => Ok(walk),
        ExprKind::Bool(_) => Ok(walk),
        ExprKind::Int(_) => Ok(walk),
        ExprKind::Var(variable) => mark_use(*variable, walk),
        ExprKind::Call(_, args) => mark_all(alloc, args.as_slice(), walk),
        ExprKind::Neg(operand) => mark(alloc, operand.get(), walk),
        ExprKind::Not(operand) => mark(alloc, operand.get(), walk),
        ExprKind::Len(operand) => mark(alloc, operand.get(), walk),
        ExprKind::Binary(_, left, right) => {
            let walk = mark(alloc, right.get(), walk)?;
            mark(alloc, left.get(), walk)
        }
        ExprKind::Is(operand, _) => mark(alloc, operand.get(), walk),
        ExprKind::Index(array, index) => {
            let walk = mark(alloc, index.get(), walk)?;
            mark(alloc, array.get(), walk)
        }
        ExprKind::Field(whole, _) => mark(alloc, whole.get(), walk),
        ExprKind::List(items) => mark_all(alloc, items.as_slice(), walk),
        ExprKind::Repeat(item, count) => {
            let walk = mark(alloc, count.get(), walk)?;
            mark(alloc, item.get(), walk)
        }
        ExprKind::Record(fields) => mark_fields(alloc, fields.as_slice(), walk),
        ExprKind::Quant(_, variable, from, to, body) => {
            let walk = mark_body(alloc, *variable, body.get(), walk)?;
            let walk = mark(alloc, to.get(), walk)?;
            mark(alloc, from.get(), walk)
        }
    }
}

/// The body of a quantifier, of which any number of turns may follow.
#[cycle(mark)]
fn mark_body(alloc: Global, variable: u32, body: &Expr, walk: Walk) -> Result<Walk, AllocError>
    ensures value { IfOk result (λ w. w ≡ spec.body_marked variable (seen_expr body.now) walk) }
{
    let Walk { live, marks } = walk;
    let live = turned(variable, body, live)?;
    let inside = Walk {
        live: live.copy(alloc)?,
        marks,
    };
    let inside = mark(alloc, body, inside)?;
    Ok(with_live(live, inside))
}

/// The same of expressions, one behind the other.
#[cycle(mark)]
pub fn mark_all(alloc: Global, exprs: &[Expr], walk: Walk) -> Result<Walk, AllocError>
    ensures value { IfOk result (λ w. w ≡ spec.marked_all (exprs_of (seen_exprs exprs.now)) walk) }
{
    let mut walk = walk;
    let mut left = exprs.len();
    while left > 0 {
        left -= 1;
        walk = mark(alloc, &exprs[left], walk)?;
    }
    Ok(walk)
}

#[cycle(mark)]
fn mark_fields(alloc: Global, fields: &[(Name, Expr)], walk: Walk) -> Result<Walk, AllocError>
    ensures value { IfOk result (λ w. w ≡ spec.marked_fields (seen_fields fields.now) walk) }
{
    let mut walk = walk;
    let mut left = fields.len();
    while left > 0 {
        left -= 1;
        walk = mark(alloc, &fields[left].1, walk)?;
    }
    Ok(walk)
}

/// A use, which is the last where the variable isn't live behind it.
fn mark_use(variable: u32, walk: Walk) -> Result<Walk, AllocError>
    ensures value { IfOk result (λ w. w ≡ spec.used variable walk) }
{
    let Walk {
        mut live,
        mut marks,
    } = walk;
    let last = !live.has(variable);
    live.insert(variable)?;
    marks.push(last)?;
    Ok(Walk { live, marks })
}

/// The steps of a path.
pub fn mark_steps(alloc: Global, path: &[Step], walk: Walk) -> Result<Walk, AllocError>
    ensures value { IfOk result (λ w. w ≡ spec.marked_steps (map seen_step path.now) walk) }
{
    let mut walk = walk;
    let mut left = path.len();
    while left > 0 {
        left -= 1;
        walk = mark_step(alloc, &path[left], walk)?;
    }
    Ok(walk)
}

fn mark_step(alloc: Global, step: &Step, walk: Walk) -> Result<Walk, AllocError>
    ensures value { IfOk result (λ w. w ≡ spec.marked_step (seen_step step.now) walk) }
{
    match &step.kind {
        StepKind::Index(index) => mark(alloc, index, walk),
        StepKind::Field(_) => Ok(walk),
    }
}

/// A mark for each variable in an expression that the machine doesn't run.
#[cycle(skip)]
pub fn skip(expr: &Expr, marks: Marks) -> Result<Marks, AllocError>
    ensures value { IfOk result (λ m. m ≡ definition.unused (seen_expr expr.now) marks) }
{
    match &expr.kind {
        ExprKind::Null => Ok(marks),
        ExprKind::Bool(_) => Ok(marks),
        ExprKind::Int(_) => Ok(marks),
        ExprKind::Var(_) => skip_use(marks),
        ExprKind::Call(_, args) => skip_all(args.as_slice(), marks),
        ExprKind::Neg(operand) => skip(operand.get(), marks),
        ExprKind::Not(operand) => skip(operand.get(), marks),
        ExprKind::Len(operand) => skip(operand.get(), marks),
        ExprKind::Binary(_, left, right) => {
            let marks = skip(right.get(), marks)?;
            skip(left.get(), marks)
        }
        ExprKind::Is(operand, _) => skip(operand.get(), marks),
        ExprKind::Index(array, index) => {
            let marks = skip(index.get(), marks)?;
            skip(array.get(), marks)
        }
        ExprKind::Field(whole, _) => skip(whole.get(), marks),
        ExprKind::List(items) => skip_all(items.as_slice(), marks),
        ExprKind::Repeat(item, count) => {
            let marks = skip(count.get(), marks)?;
            skip(item.get(), marks)
        }
        ExprKind::Record(fields) => skip_fields(fields.as_slice(), marks),
        ExprKind::Quant(_, _, from, to, body) => {
            let marks = skip(body.get(), marks)?;
            let marks = skip(to.get(), marks)?;
            skip(from.get(), marks)
        }
    }
}

#[cycle(skip)]
fn skip_all(exprs: &[Expr], marks: Marks) -> Result<Marks, AllocError>
    ensures value { IfOk result (λ m. m ≡ definition.all_unused (exprs_of (seen_exprs exprs.now)) marks) }
{
    let mut marks = marks;
    let mut left = exprs.len();
    while left > 0 {
        left -= 1;
        marks = skip(&exprs[left], marks)?;
    }
    Ok(marks)
}

#[cycle(skip)]
fn skip_fields(fields: &[(Name, Expr)], marks: Marks) -> Result<Marks, AllocError>
    ensures value { IfOk result (λ m. m ≡ definition.fields_unused (seen_fields fields.now) marks) }
{
    let mut marks = marks;
    let mut left = fields.len();
    while left > 0 {
        left -= 1;
        marks = skip(&fields[left].1, marks)?;
    }
    Ok(marks)
}

fn skip_use(marks: Marks) -> Result<Marks, AllocError>
    ensures value { IfOk result (λ m. m ≡ false ∷ marks) }
{
    let mut marks = marks;
    marks.push(false)?;
    Ok(marks)
}

/// The same of clauses.
pub fn skip_clauses(clauses: &[Expr], marks: Marks) -> Result<Marks, AllocError>
    ensures value { IfOk result (λ m. m ≡ definition.clauses_unused (seen_exprs clauses.now) marks) }
{
    let mut marks = marks;
    let mut left = clauses.len();
    while left > 0 {
        left -= 1;
        marks = skip(&clauses[left], marks)?;
    }
    Ok(marks)
}
