//! How many nodes of types and expressions are no names.
ghost use Rattle.std.specs.Prelude.{◌≡◌, ◌+◌, map, IfOk};
ghost use Rattle.wy_core.specs.CoreSeen.{field_tys_of, seen_alias, seen_expr, seen_exprs, seen_fields, seen_ty};
ghost use Rattle.wy_core.specs.CoreTree.{exprs_of};
ghost use Rattle.wy_vc_spec.specs.Named as spec;
ghost use Rattle.wy_vc_tables.specs.Mentions.{no_nodes};

use crate::sizes::total;
use std::alloc::AllocError;
use wy_core::{Alias, Expr, ExprKind, Ty, TyKind};
use wy_data::Name;

// One more.
fn with_one(a: usize) -> Result<usize, AllocError>
    ensures value { IfOk result (λ n. n ≡ 1 + a) }
{
    total(1, a)
}

// One more than both.
fn with_two(a: usize, b: usize) -> Result<usize, AllocError>
    ensures value { IfOk result (λ n. n ≡ 1 + a + b) }
{
    let one = with_one(a)?;
    total(one, b)
}

// One more than all three.
fn with_three(a: usize, b: usize, c: usize) -> Result<usize, AllocError>
    ensures value { IfOk result (λ n. n ≡ 1 + a + b + c) }
{
    let two = with_two(a, b)?;
    total(two, c)
}

/// How many nodes of a type are no names.
#[cycle(ty_nodes)]
pub fn nodes_in_ty(ty: &Ty) -> Result<usize, AllocError>
    ensures value { IfOk result (λ n. n ≡ spec.nodes_of_ty no_nodes (seen_ty ty.now)) }
{
    match &ty.kind {
        TyKind::Null => Ok(1),
        TyKind::Bool => Ok(1),
        TyKind::Int => Ok(1),
        TyKind::Any => Ok(1),
        TyKind::Void => Ok(1),
        TyKind::Record(fields) => nodes_in_record_ty(fields.as_slice()),
        TyKind::Array(item) => with_one(nodes_in_ty(item.get())?),
        TyKind::Union(left, right) => with_two(nodes_in_ty(left.get())?, nodes_in_ty(right.get())?),
        TyKind::Inter(left, right) => with_two(nodes_in_ty(left.get())?, nodes_in_ty(right.get())?),
        TyKind::Not(inner) => with_one(nodes_in_ty(inner.get())?),
        TyKind::Named(_) => Ok(0),
        TyKind::Normal(_) => Ok(1),
    }
}

// A record type of these fields.
#[cycle(ty_nodes)]
fn nodes_in_record_ty(fields: &[(Name, Ty)]) -> Result<usize, AllocError>
    ensures value { IfOk result (λ n. n ≡ 1 + spec.nodes_of_fields no_nodes (field_tys_of (map (λ f. (f.0, seen_ty f.1)) fields.now))) }
{
    with_one(nodes_in_field_tys(fields)?)
}

#[cycle(ty_nodes)]
fn nodes_in_field_tys(fields: &[(Name, Ty)]) -> Result<usize, AllocError>
    ensures value { IfOk result (λ n. n ≡ spec.nodes_of_fields no_nodes (field_tys_of (map (λ f. (f.0, seen_ty f.1)) fields.now))) }
{
    let mut count = 0;
    for field in fields {
        count = total(count, nodes_in_ty(&field.1)?)?;
    }
    Ok(count)
}

/// How many nodes of an expression, with those of the types that it tests, are no names.
#[cycle(expr_nodes)]
pub fn nodes_in_expr(expr: &Expr) -> Result<usize, AllocError>
    ensures value { IfOk result (λ n. n ≡ spec.nodes_of_expr no_nodes (seen_expr expr.now)) }
{
    match &expr.kind {
        ExprKind::Null => Ok(1),
        ExprKind::Bool(_) => Ok(1),
        ExprKind::Int(_) => Ok(1),
        ExprKind::Var(_) => Ok(1),
        ExprKind::Call(_, args) => with_one(nodes_in_exprs(args.as_slice())?),
        ExprKind::Neg(a) => with_one(nodes_in_expr(a.get())?),
        ExprKind::Not(a) => with_one(nodes_in_expr(a.get())?),
        ExprKind::Len(a) => with_one(nodes_in_expr(a.get())?),
        ExprKind::Binary(_, a, b) => with_two(nodes_in_expr(a.get())?, nodes_in_expr(b.get())?),
        ExprKind::Is(a, ty) => with_two(nodes_in_expr(a.get())?, nodes_in_ty(ty)?),
        ExprKind::Index(a, b) => with_two(nodes_in_expr(a.get())?, nodes_in_expr(b.get())?),
        ExprKind::Field(a, _) => with_one(nodes_in_expr(a.get())?),
        ExprKind::List(items) => with_one(nodes_in_exprs(items.as_slice())?),
        ExprKind::Repeat(a, b) => with_two(nodes_in_expr(a.get())?, nodes_in_expr(b.get())?),
        ExprKind::Record(fields) => nodes_in_record(fields.as_slice()),
        ExprKind::Quant(_, _, a, b, c) => with_three(
            nodes_in_expr(a.get())?,
            nodes_in_expr(b.get())?,
            nodes_in_expr(c.get())?,
        ),
    }
}

#[cycle(expr_nodes)]
fn nodes_in_exprs(exprs: &[Expr]) -> Result<usize, AllocError>
    ensures value { IfOk result (λ n. n ≡ spec.nodes_of_exprs no_nodes (exprs_of (seen_exprs exprs.now))) }
{
    let mut count = 0;
    for expr in exprs {
        count = total(count, nodes_in_expr(expr)?)?;
    }
    Ok(count)
}

// A record of these fields.
#[cycle(expr_nodes)]
fn nodes_in_record(fields: &[(Name, Expr)]) -> Result<usize, AllocError>
    ensures value { IfOk result (λ n. n ≡ 1 + spec.nodes_of_values no_nodes (seen_fields fields.now)) }
{
    with_one(nodes_in_values(fields)?)
}

#[cycle(expr_nodes)]
fn nodes_in_values(fields: &[(Name, Expr)]) -> Result<usize, AllocError>
    ensures value { IfOk result (λ n. n ≡ spec.nodes_of_values no_nodes (seen_fields fields.now)) }
{
    let mut count = 0;
    for field in fields {
        count = total(count, nodes_in_expr(&field.1)?)?;
    }
    Ok(count)
}

// How many nodes of clauses are no names.
fn nodes_in_clauses(exprs: &[Expr]) -> Result<usize, AllocError>
    ensures value { IfOk result (λ n. n ≡ spec.nodes_of_clauses no_nodes (seen_exprs exprs.now)) }
{
    let mut count = 0;
    for expr in exprs {
        count = total(count, nodes_in_expr(expr)?)?;
    }
    Ok(count)
}

/// How many nodes of a named type's definition and clauses are no names. Linear in these.
pub fn nodes_in_alias(alias: &Alias) -> Result<usize, AllocError>
    ensures value { IfOk result (λ n. n ≡ spec.nodes_of_alias no_nodes (seen_alias alias.now)) }
{
    let definition = nodes_in_ty(&alias.ty)?;
    let clauses = nodes_in_clauses(alias.clauses.as_slice())?;
    total(definition, clauses)
}
