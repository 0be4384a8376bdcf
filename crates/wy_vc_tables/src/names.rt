//! The names that types and expressions mention.
ghost use Rattle.std.specs.Prelude.{◌≡◌, [], map, IfOk, OnOk};
ghost use Rattle.wy_core.specs.CoreSeen.{field_tys_of, seen_alias, seen_expr, seen_exprs, seen_fields, seen_ty};
ghost use Rattle.wy_core.specs.CoreTree.{exprs_of};
ghost use Rattle.wy_vc_tables.specs.Mentions as spec;

use std::alloc::{AllocError, Global};
use wy_core::{Alias, Expr, ExprKind, Ty, TyKind};
use wy_data::Name;
use wy_items::Items;

/// Puts the names that a type mentions behind these, in order.
#[cycle(ty_names)]
pub fn names_in_ty(names: &mut Items<u32>, ty: &Ty) -> Result<(), AllocError>
    ensures value { OnOk result (names.new ≡ spec.with_ty names.old (seen_ty ty.now)) }
{
    match &ty.kind {
        TyKind::Null => Ok(()),
        TyKind::Bool => Ok(()),
        TyKind::Int => Ok(()),
        TyKind::Any => Ok(()),
        TyKind::Void => Ok(()),
        TyKind::Record(fields) => names_in_field_tys(names, fields.as_slice()),
        TyKind::Array(item) => names_in_ty(names, item.get()),
        TyKind::Union(left, right) => {
            names_in_ty(names, left.get())?;
            names_in_ty(names, right.get())
        }
        TyKind::Inter(left, right) => {
            names_in_ty(names, left.get())?;
            names_in_ty(names, right.get())
        }
        TyKind::Not(inner) => names_in_ty(names, inner.get()),
        TyKind::Named(number) => names.push(*number),
        TyKind::Normal(_) => Ok(()),
    }
}

#[cycle(ty_names)]
fn names_in_field_tys(names: &mut Items<u32>, fields: &[(Name, Ty)]) -> Result<(), AllocError>
    ensures value { OnOk result (names.new ≡ spec.with_field_tys names.old (field_tys_of (map (λ f. (f.0, seen_ty f.1)) fields.now))) }
{
    for field in fields {
        names_in_ty(names, &field.1)?;
    }
    Ok(())
}

/// Puts the names in the types that an expression tests behind these, in order.
#[cycle(expr_names)]
pub fn names_in_expr(names: &mut Items<u32>, expr: &Expr) -> Result<(), AllocError>
    ensures value { OnOk result (names.new ≡ spec.with_expr names.old (seen_expr expr.now)) }
{
    match &expr.kind {
        ExprKind::Null => Ok(()),
        ExprKind::Bool(_) => Ok(()),
        ExprKind::Int(_) => Ok(()),
        ExprKind::Var(_) => Ok(()),
        ExprKind::Call(_, args) => names_in_exprs(names, args.as_slice()),
        ExprKind::Neg(a) => names_in_expr(names, a.get()),
        ExprKind::Not(a) => names_in_expr(names, a.get()),
        ExprKind::Len(a) => names_in_expr(names, a.get()),
        ExprKind::Binary(_, a, b) => {
            names_in_expr(names, a.get())?;
            names_in_expr(names, b.get())
        }
        ExprKind::Is(a, ty) => {
            names_in_expr(names, a.get())?;
            names_in_ty(names, ty)
        }
        ExprKind::Index(a, b) => {
            names_in_expr(names, a.get())?;
            names_in_expr(names, b.get())
        }
        ExprKind::Field(a, _) => names_in_expr(names, a.get()),
        ExprKind::List(items) => names_in_exprs(names, items.as_slice()),
        ExprKind::Repeat(a, b) => {
            names_in_expr(names, a.get())?;
            names_in_expr(names, b.get())
        }
        ExprKind::Record(fields) => names_in_values(names, fields.as_slice()),
        ExprKind::Quant(_, _, a, b, c) => {
            names_in_expr(names, a.get())?;
            names_in_expr(names, b.get())?;
            names_in_expr(names, c.get())
        }
    }
}

#[cycle(expr_names)]
fn names_in_exprs(names: &mut Items<u32>, exprs: &[Expr]) -> Result<(), AllocError>
    ensures value { OnOk result (names.new ≡ spec.with_exprs names.old (exprs_of (seen_exprs exprs.now))) }
{
    for expr in exprs {
        names_in_expr(names, expr)?;
    }
    Ok(())
}

#[cycle(expr_names)]
fn names_in_values(names: &mut Items<u32>, fields: &[(Name, Expr)]) -> Result<(), AllocError>
    ensures value { OnOk result (names.new ≡ spec.with_fields names.old (seen_fields fields.now)) }
{
    for field in fields {
        names_in_expr(names, &field.1)?;
    }
    Ok(())
}

// Puts the names in the types that clauses test behind these, in order.
fn names_in_clauses(names: &mut Items<u32>, exprs: &[Expr]) -> Result<(), AllocError>
    ensures value { OnOk result (names.new ≡ spec.with_clauses names.old (seen_exprs exprs.now)) }
{
    for expr in exprs {
        names_in_expr(names, expr)?;
    }
    Ok(())
}

/// The names that a named type's definition and clauses mention, in order. Linear in these.
pub fn names_in_alias(alloc: Global, alias: &Alias) -> Result<Items<u32>, AllocError>
    ensures value { IfOk result (λ names. names ≡ spec.with_clauses (spec.with_ty [] (seen_ty alias.now.ty)) (seen_exprs alias.now.clauses)) }
{
    let mut names = Items::new(alloc);
    names_in_ty(&mut names, &alias.ty)?;
    names_in_clauses(&mut names, alias.clauses.as_slice())?;
    Ok(names)
}
