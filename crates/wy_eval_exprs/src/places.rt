//! Where an expression stands.
ghost use Rattle.std.specs.Prelude.{◌≡◌};
ghost use Rattle.wy_core.specs.CoreSeen.{seen_expr};
ghost use Rattle.wy_sem.specs.Expressions.{node};

use wy_core::{Expr, ExprKind};

/// The byte offset of an expression.
pub fn place_of(expr: &Expr) -> u32
    ensures value { result ≡ node (seen_expr expr.now) }
{
    let at = expr.at;
    match &expr.kind {
        ExprKind::Null => at,
        ExprKind::Bool(_) => at,
        ExprKind::Int(_) => at,
        ExprKind::Var(_) => at,
        ExprKind::Call(_, _) => at,
        ExprKind::Neg(_) => at,
        ExprKind::Not(_) => at,
        ExprKind::Len(_) => at,
        ExprKind::Binary(_, _, _) => at,
        ExprKind::Is(_, _) => at,
        ExprKind::Index(_, _) => at,
        ExprKind::Field(_, _) => at,
        ExprKind::List(_) => at,
        ExprKind::Repeat(_, _) => at,
        ExprKind::Record(_) => at,
        ExprKind::Quant(_, _, _, _, _) => at,
    }
}
