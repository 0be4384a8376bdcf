//! Names in expressions.
ghost use Rattle.std.specs.Prelude.{◌≡◌, [], map, IfOk, OnOk};
ghost use Rattle.wy_ast.specs.SurfaceSeen.{seen_expr, seen_exprs, seen_fields, seen_ranges};
ghost use Rattle.wy_ast.specs.SurfaceTree.{exprs_of};
ghost use Rattle.wy_names_recursion.specs.ExprNames as names;

use crate::bind_types::in_ty;
use crate::context::{Context, call, contract, is_variable};
use std::alloc::{AllocError, Global};
use wy_ast::{Expr, ExprKind};
use wy_data::Name;
use wy_names_scope::{Cause, Entry, Fault, Table, noted_where, place_of_expr};

/// The faults of an expression. The scope is as before afterwards. Linear in the expression's size.
#[cycle(expr)]
#[tactic(auto, using(crate::proofs::CutLemmas::kept_ranges))]
pub fn in_expr(
    alloc: Global,
    context: Context,
    scope: &mut Table,
    found: Option<Fault>,
    expr: &Expr,
) -> Result<Option<Fault>, AllocError>
    ensures scope { OnOk result (scope.new ≡ scope.old) }
    ensures value { IfOk result (λ f. f ≡ names.in_expr context scope.old (seen_expr expr.now) found) }
{
    match &expr.kind {
        ExprKind::Null => Ok(found),
        ExprKind::Bool(_) => Ok(found),
        ExprKind::Int(_) => Ok(found),
        ExprKind::Text(_) => Ok(found),
        ExprKind::Var(name) => {
            let unknown = !is_variable(scope.get(name));
            Ok(noted_where(unknown, found, expr.at, Cause::Unknown))
        }
        ExprKind::Call(name, args) => {
            let callee = scope.get(name);
            let count = count_of(args.as_slice());
            let found = call(context, true, callee, count, expr.at, found);
            in_exprs(alloc, context, scope, found, args.as_slice())
        }
        ExprKind::Neg(operand) => in_expr(alloc, context, scope, found, operand.get()),
        ExprKind::Not(operand) => in_expr(alloc, context, scope, found, operand.get()),
        ExprKind::Len(operand) => in_expr(alloc, context, scope, found, operand.get()),
        ExprKind::Binary(_, left, right) => {
            let found = in_expr(alloc, context, scope, found, left.get())?;
            in_expr(alloc, context, scope, found, right.get())
        }
        ExprKind::Is(operand, ty) => {
            let found = in_expr(alloc, context, scope, found, operand.get())?;
            in_ty(alloc, scope, found, ty)
        }
        ExprKind::Index(array, index) => {
            let found = in_expr(alloc, context, scope, found, array.get())?;
            in_expr(alloc, context, scope, found, index.get())
        }
        ExprKind::Field(whole, _) => in_expr(alloc, context, scope, found, whole.get()),
        ExprKind::List(items) => in_exprs(alloc, context, scope, found, items.as_slice()),
        ExprKind::Repeat(item, count) => {
            let found = in_expr(alloc, context, scope, found, item.get())?;
            in_expr(alloc, context, scope, found, count.get())
        }
        ExprKind::Record(fields) => in_fields(alloc, context, scope, found, fields.as_slice()),
        ExprKind::Quant(_, ranges, body) => {
            let mark = scope.len();
            let inside = contract(context);
            let ranges = ranges.as_slice();
            let found = in_ranges(alloc, inside, scope, found, expr.at, ranges)?;
            let found = in_expr(alloc, inside, scope, found, body.get())?;
            scope.cut(mark);
            Ok(found)
        }
    }
}

/// The faults of these expressions. The scope is as before afterwards.
#[cycle(expr)]
pub fn in_exprs(
    alloc: Global,
    context: Context,
    scope: &mut Table,
    found: Option<Fault>,
    exprs: &[Expr],
) -> Result<Option<Fault>, AllocError>
    ensures scope { OnOk result (scope.new ≡ scope.old) }
    ensures value { IfOk result (λ f. f ≡ names.in_exprs context scope.old (exprs_of (seen_exprs exprs.now)) found) }
{
    let mut found = found;
    for expr in exprs {
        found = in_expr(alloc, context, scope, found, expr)?;
    }
    Ok(found)
}

#[cycle(expr)]
fn in_fields(
    alloc: Global,
    context: Context,
    scope: &mut Table,
    found: Option<Fault>,
    fields: &[(Name, Expr)],
) -> Result<Option<Fault>, AllocError>
    ensures scope { OnOk result (scope.new ≡ scope.old) }
    ensures value { IfOk result (λ f. f ≡ names.in_fields context scope.old [] (seen_fields fields.now) found) }
{
    let mut seen = Table::new(alloc);
    let mut found = found;
    for field in fields {
        found = in_expr(alloc, context, scope, found, &field.1)?;
        found = noted_where(
            seen.has(&field.0),
            found,
            place_of_expr(&field.1),
            Cause::Twice,
        );
        seen.put(alloc, &field.0, Entry::Variable(0))?;
    }
    Ok(found)
}

/// The ranges of a quantifier, whose variables are in scope afterwards.
#[cycle(expr)]
fn in_ranges(
    alloc: Global,
    context: Context,
    scope: &mut Table,
    found: Option<Fault>,
    at: u32,
    ranges: &[(Name, Expr, Expr)],
) -> Result<Option<Fault>, AllocError>
    ensures scope { OnOk result (scope.new ≡ names.with_ranges scope.old (seen_ranges ranges.now)) }
    ensures value { IfOk result (λ f. f ≡ names.in_ranges context scope.old at (seen_ranges ranges.now) found) }
{
    let mut found = found;
    for range in ranges {
        found = in_expr(alloc, context, scope, found, &range.1)?;
        found = in_expr(alloc, context, scope, found, &range.2)?;
        found = noted_where(scope.has(&range.0), found, at, Cause::Twice);
        scope.put(alloc, &range.0, Entry::Variable(0))?;
    }
    Ok(found)
}

/// How many expressions there are.
#[tactic(auto, using(crate::proofs::BindSeenLemmas::count_seen))]
pub fn count_of(exprs: &[Expr]) -> usize
    ensures value { result ≡ names.count_of (exprs_of (seen_exprs exprs.now)) }
{
    exprs.len()
}
