//! Where a type or an expression stands.
ghost use Rattle.std.specs.Prelude.{◌≡◌};
ghost use Rattle.wy_ast.specs.SurfaceSeen.{seen_ty, seen_expr};
ghost use Rattle.wy_names_scope.specs.Places as places;

use wy_ast::{Expr, ExprKind, Ty, TyKind};

/// The place of a type.
pub fn place_of_ty(ty: &Ty) -> u32
    ensures value { result ≡ places.place_of_ty (seen_ty ty.now) }
{
    match &ty.kind {
        TyKind::Null => ty.at,
        TyKind::Bool => ty.at,
        TyKind::Int => ty.at,
        TyKind::Any => ty.at,
        TyKind::Void => ty.at,
        TyKind::Record(_) => ty.at,
        TyKind::Array(_) => ty.at,
        TyKind::Union(_, _) => ty.at,
        TyKind::Inter(_, _) => ty.at,
        TyKind::Not(_) => ty.at,
        TyKind::Named(_) => ty.at,
    }
}

/// The place of an expression.
pub fn place_of_expr(expr: &Expr) -> u32
    ensures value { result ≡ places.place_of_expr (seen_expr expr.now) }
{
    match &expr.kind {
        ExprKind::Null => expr.at,
        ExprKind::Bool(_) => expr.at,
        ExprKind::Int(_) => expr.at,
        ExprKind::Text(_) => expr.at,
        ExprKind::Var(_) => expr.at,
        ExprKind::Call(_, _) => expr.at,
        ExprKind::Neg(_) => expr.at,
        ExprKind::Not(_) => expr.at,
        ExprKind::Len(_) => expr.at,
        ExprKind::Binary(_, _, _) => expr.at,
        ExprKind::Is(_, _) => expr.at,
        ExprKind::Index(_, _) => expr.at,
        ExprKind::Field(_, _) => expr.at,
        ExprKind::List(_) => expr.at,
        ExprKind::Repeat(_, _) => expr.at,
        ExprKind::Record(_) => expr.at,
        ExprKind::Quant(_, _, _) => expr.at,
    }
}
