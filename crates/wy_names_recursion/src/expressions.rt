//! The properties that a clause uses, and the types that its tests mention.
ghost use Rattle.std.specs.Prelude.{◌≡◌, OnOk};
ghost use Rattle.wy_ast.specs.SurfaceSeen.{seen_expr, seen_exprs, seen_fields, seen_ranges};
ghost use Rattle.wy_ast.specs.SurfaceTree.{exprs_of};
ghost use Rattle.wy_names_recursion.specs.Uses as uses;
ghost use Rattle.wy_names_recursion.specs.ExprUses as spec;

use crate::edges::{Edge, Way, put};
use crate::types::in_ty;
use std::alloc::AllocError;
use wy_ast::{Expr, ExprKind};
use wy_data::Name;
use wy_items::Items;
use wy_names_scope::{Entry, Table};

/// Puts the uses in an expression behind the others. Linear in its size.
#[cycle(expr)]
fn in_expr(scope: &Table, edges: &mut Items<Edge>, from: u32, expr: &Expr) -> Result<(), AllocError>
    ensures value { OnOk result (edges.new ≡ spec.in_expr scope.now from (seen_expr expr.now) edges.old) }
{
    match &expr.kind {
        ExprKind::Null => Ok(()),
        ExprKind::Bool(_) => Ok(()),
        ExprKind::Int(_) => Ok(()),
        ExprKind::Text(_) => Ok(()),
        ExprKind::Var(_) => Ok(()),
        ExprKind::Call(name, args) => {
            called(scope.get(name), edges, from, expr.at)?;
            in_exprs(scope, edges, from, args.as_slice())
        }
        ExprKind::Neg(operand) => in_expr(scope, edges, from, operand.get()),
        ExprKind::Not(operand) => in_expr(scope, edges, from, operand.get()),
        ExprKind::Len(operand) => in_expr(scope, edges, from, operand.get()),
        ExprKind::Binary(_, left, right) => {
            in_expr(scope, edges, from, left.get())?;
            in_expr(scope, edges, from, right.get())
        }
        ExprKind::Is(operand, ty) => {
            in_expr(scope, edges, from, operand.get())?;
            in_ty(scope, edges, from, Way::Mention, ty)
        }
        ExprKind::Index(array, index) => {
            in_expr(scope, edges, from, array.get())?;
            in_expr(scope, edges, from, index.get())
        }
        ExprKind::Field(whole, _) => in_expr(scope, edges, from, whole.get()),
        ExprKind::List(items) => in_exprs(scope, edges, from, items.as_slice()),
        ExprKind::Repeat(item, count) => {
            in_expr(scope, edges, from, item.get())?;
            in_expr(scope, edges, from, count.get())
        }
        ExprKind::Record(fields) => in_values(scope, edges, from, fields.as_slice()),
        ExprKind::Quant(_, ranges, body) => {
            in_ranges(scope, edges, from, ranges.as_slice())?;
            in_expr(scope, edges, from, body.get())
        }
    }
}

/// Puts the uses in these expressions behind the others.
#[cycle(expr)]
pub fn in_exprs(
    scope: &Table,
    edges: &mut Items<Edge>,
    from: u32,
    exprs: &[Expr],
) -> Result<(), AllocError>
    ensures value { OnOk result (edges.new ≡ spec.in_exprs scope.now from (exprs_of (seen_exprs exprs.now)) edges.old) }
{
    for expr in exprs {
        in_expr(scope, edges, from, expr)?;
    }
    Ok(())
}

#[cycle(expr)]
fn in_values(
    scope: &Table,
    edges: &mut Items<Edge>,
    from: u32,
    fields: &[(Name, Expr)],
) -> Result<(), AllocError>
    ensures value { OnOk result (edges.new ≡ spec.in_values scope.now from (seen_fields fields.now) edges.old) }
{
    for field in fields {
        in_expr(scope, edges, from, &field.1)?;
    }
    Ok(())
}

#[cycle(expr)]
fn in_ranges(
    scope: &Table,
    edges: &mut Items<Edge>,
    from: u32,
    ranges: &[(Name, Expr, Expr)],
) -> Result<(), AllocError>
    ensures value { OnOk result (edges.new ≡ spec.in_ranges scope.now from (seen_ranges ranges.now) edges.old) }
{
    for range in ranges {
        in_expr(scope, edges, from, &range.1)?;
        in_expr(scope, edges, from, &range.2)?;
    }
    Ok(())
}

/// The call of a name, where it stands for a property.
fn called(
    entry: Option<Entry>,
    edges: &mut Items<Edge>,
    from: u32,
    at: u32,
) -> Result<(), AllocError>
    ensures value { OnOk result (edges.new ≡ uses.property_named from at entry edges.old) }
{
    match entry {
        None => Ok(()),
        Some(Entry::Type(_, _)) => Ok(()),
        Some(Entry::Routine(_)) => Ok(()),
        Some(Entry::Property(to, _)) => put(edges, from, to, at, Way::Use),
        Some(Entry::Variable(_)) => Ok(()),
    }
}
