//! Uses of what may be without a value.
ghost use Rattle.std.specs.Prelude.{◌≡◌, [], map, IfOk, OnOk};
ghost use Rattle.wy_core.specs.CoreSeen.{seen_expr, seen_exprs, seen_fields, seen_option, seen_step};
ghost use Rattle.wy_core.specs.CoreTree.{exprs_of};
ghost use Rattle.wy_assign.specs.Faults as spec;

use crate::marks::Marks;
use std::alloc::{AllocError, Global};
use wy_core::{Expr, ExprKind, Step, StepKind};
use wy_data::Name;

/// The lesser of the place found so far and one more, where that one stands.
pub fn noted_where(stands: bool, found: Option<u32>, at: u32) -> Option<u32>
    ensures value { result ≡ spec.noted_where stands found at }
{
    if !stands {
        return found;
    }
    match found {
        None => Some(at),
        Some(other) => { if at < other { Some(at) } else { Some(other) } }
    }
}

fn is_in(bound: &[u32], variable: u32) -> bool
    ensures value { result ≡ spec.is_in bound.now variable }
{
    for other in bound {
        if variable == *other {
            return true;
        }
    }
    false
}

fn may_be_unset(marks: &Marks, bound: &[u32], variable: u32) -> bool
    ensures value { result ≡ spec.may_be_unset marks.now bound.now variable }
{
    if is_in(bound, variable) {
        return false;
    }
    marks.has(variable)
}

/// The least place of a use in the expression, `found` included. The variables of the quantifiers
/// around it have a value. Linear in the expression, each use times the quantifiers around it.
#[cycle(expr)]
fn in_expr(
    marks: &Marks,
    bound: &mut Vec<u32>,
    expr: &Expr,
    found: Option<u32>,
) -> Result<Option<u32>, AllocError>
    ensures kept { OnOk result (bound.new.items ≡ bound.old.items) }
    ensures value { IfOk result (λ f. f ≡ spec.expr_faults marks.now bound.old.items (seen_expr expr.now) found) }
{
    match &expr.kind {
        ExprKind::Null => Ok(found),
        ExprKind::Bool(_) => Ok(found),
        ExprKind::Int(_) => Ok(found),
        ExprKind::Var(variable) => {
            let stands = may_be_unset(marks, bound.as_slice(), *variable);
            Ok(noted_where(stands, found, expr.at))
        }
        ExprKind::Call(_, args) => in_exprs(marks, bound, args.as_slice(), found),
        ExprKind::Neg(operand) => in_expr(marks, bound, operand.get(), found),
        ExprKind::Not(operand) => in_expr(marks, bound, operand.get(), found),
        ExprKind::Len(operand) => in_expr(marks, bound, operand.get(), found),
        ExprKind::Binary(_, left, right) => {
            let found = in_expr(marks, bound, left.get(), found)?;
            in_expr(marks, bound, right.get(), found)
        }
        ExprKind::Is(operand, _) => in_expr(marks, bound, operand.get(), found),
        ExprKind::Index(array, index) => {
            let found = in_expr(marks, bound, array.get(), found)?;
            in_expr(marks, bound, index.get(), found)
        }
        ExprKind::Field(whole, _) => in_expr(marks, bound, whole.get(), found),
        ExprKind::List(items) => in_exprs(marks, bound, items.as_slice(), found),
        ExprKind::Repeat(item, count) => {
            let found = in_expr(marks, bound, item.get(), found)?;
            in_expr(marks, bound, count.get(), found)
        }
        ExprKind::Record(fields) => in_fields(marks, bound, fields.as_slice(), found),
        ExprKind::Quant(_, variable, from, to, body) => {
            let found = in_expr(marks, bound, from.get(), found)?;
            let found = in_expr(marks, bound, to.get(), found)?;
            let mark = bound.len();
            bound.push(*variable)?;
            let found = in_expr(marks, bound, body.get(), found)?;
            bound.truncate(mark);
            Ok(found)
        }
    }
}

#[cycle(expr)]
fn in_exprs(
    marks: &Marks,
    bound: &mut Vec<u32>,
    exprs: &[Expr],
    found: Option<u32>,
) -> Result<Option<u32>, AllocError>
    ensures kept { OnOk result (bound.new.items ≡ bound.old.items) }
    ensures value { IfOk result (λ f. f ≡ spec.exprs_faults marks.now bound.old.items (exprs_of (seen_exprs exprs.now)) found) }
{
    let mut found = found;
    for expr in exprs {
        found = in_expr(marks, bound, expr, found)?;
    }
    Ok(found)
}

#[cycle(expr)]
fn in_fields(
    marks: &Marks,
    bound: &mut Vec<u32>,
    fields: &[(Name, Expr)],
    found: Option<u32>,
) -> Result<Option<u32>, AllocError>
    ensures kept { OnOk result (bound.new.items ≡ bound.old.items) }
    ensures value { IfOk result (λ f. f ≡ spec.fields_faults marks.now bound.old.items (seen_fields fields.now) found) }
{
    let mut found = found;
    for field in fields {
        found = in_expr(marks, bound, &field.1, found)?;
    }
    Ok(found)
}

/// The least place of a use in the expression, `found` included.
pub fn note_expr(
    alloc: Global,
    marks: &Marks,
    expr: &Expr,
    found: Option<u32>,
) -> Result<Option<u32>, AllocError>
    ensures value { IfOk result (λ f. f ≡ spec.expr_faults marks.now [] (seen_expr expr.now) found) }
{
    let mut bound = Vec::new(alloc);
    in_expr(marks, &mut bound, expr, found)
}

/// The same of arguments.
pub fn note_args(
    alloc: Global,
    marks: &Marks,
    args: &[Expr],
    found: Option<u32>,
) -> Result<Option<u32>, AllocError>
    ensures value { IfOk result (λ f. f ≡ spec.exprs_faults marks.now [] (exprs_of (seen_exprs args.now)) found) }
{
    let mut bound = Vec::new(alloc);
    in_exprs(marks, &mut bound, args, found)
}

/// The same of clauses.
pub fn note_clauses(
    alloc: Global,
    marks: &Marks,
    clauses: &[Expr],
    found: Option<u32>,
) -> Result<Option<u32>, AllocError>
    ensures value { IfOk result (λ f. f ≡ spec.clauses_faults marks.now (seen_exprs clauses.now) found) }
{
    let mut found = found;
    for clause in clauses {
        found = note_expr(alloc, marks, clause, found)?;
    }
    Ok(found)
}

/// The same of a value that may be absent.
pub fn note_option(
    alloc: Global,
    marks: &Marks,
    value: &Option<Expr>,
    found: Option<u32>,
) -> Result<Option<u32>, AllocError>
    ensures value { IfOk result (λ f. f ≡ spec.option_faults marks.now (seen_option value.now) found) }
{
    match value {
        None => Ok(found),
        Some(expr) => note_expr(alloc, marks, expr, found),
    }
}

fn note_step(
    alloc: Global,
    marks: &Marks,
    step: &Step,
    found: Option<u32>,
) -> Result<Option<u32>, AllocError>
    ensures value { IfOk result (λ f. f ≡ spec.step_faults marks.now (seen_step step.now) found) }
{
    match &step.kind {
        StepKind::Index(index) => note_expr(alloc, marks, index, found),
        StepKind::Field(_) => Ok(found),
    }
}

fn note_steps(
    alloc: Global,
    marks: &Marks,
    path: &[Step],
    found: Option<u32>,
) -> Result<Option<u32>, AllocError>
    ensures value { IfOk result (λ f. f ≡ spec.steps_faults marks.now (map seen_step path.now) found) }
{
    let mut found = found;
    for step in path {
        found = note_step(alloc, marks, step, found)?;
    }
    Ok(found)
}

/// The same of the path of an assignment at this place, which uses the variable where it leads into
/// a part.
pub fn note_path(
    alloc: Global,
    marks: &Marks,
    at: u32,
    variable: u32,
    path: &[Step],
    found: Option<u32>,
) -> Result<Option<u32>, AllocError>
    ensures value { IfOk result (λ f. f ≡ spec.path_faults marks.now at variable (map seen_step path.now) found) }
{
    match path {
        [] => Ok(found),
        [_, ..] => {
            let found = noted_where(marks.has(variable), found, at);
            note_steps(alloc, marks, path, found)
        }
    }
}
