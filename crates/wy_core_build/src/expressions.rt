//! Expressions of the core, made from their parts.
ghost use Rattle.std.specs.Prelude.{◌≡◌};
ghost use Rattle.wy_core.specs.CoreSeen.{seen_expr, seen_exprs, seen_fields, seen_ty};
ghost use Rattle.wy_core.specs.CoreTree as tree;

use wy_core::{Expr, ExprKind, Op, Ty};
use wy_data::Name;
use wy_items::{Boxed, Items};

/// `null`
pub fn null(at: u32) -> Expr
    ensures value { seen_expr result ≡ tree.NullExpr at }
{
    Expr {
        at,
        kind: ExprKind::Null,
    }
}

/// A truth value.
pub fn truth(at: u32, value: bool) -> Expr
    ensures value { seen_expr result ≡ tree.BoolExpr at value }
{
    Expr {
        at,
        kind: ExprKind::Bool(value),
    }
}

/// A number.
pub fn int(at: u32, number: i128) -> Expr
    ensures value { seen_expr result ≡ tree.IntExpr at number }
{
    Expr {
        at,
        kind: ExprKind::Int(number),
    }
}

/// A variable.
pub fn var(at: u32, variable: u32) -> Expr
    ensures value { seen_expr result ≡ tree.VarExpr at variable }
{
    Expr {
        at,
        kind: ExprKind::Var(variable),
    }
}

/// A call of a function or method.
pub fn call(at: u32, routine: u32, args: Items<Expr>) -> Expr
    ensures value { seen_expr result ≡ tree.CallExpr at routine (tree.exprs_of (seen_exprs args)) }
{
    Expr {
        at,
        kind: ExprKind::Call(routine, args),
    }
}

/// The opposite of a number.
pub fn neg(at: u32, operand: Boxed<Expr>) -> Expr
    ensures value { seen_expr result ≡ tree.NegExpr at (seen_expr operand) }
{
    Expr {
        at,
        kind: ExprKind::Neg(operand),
    }
}

/// A denied expression.
pub fn denied(at: u32, operand: Boxed<Expr>) -> Expr
    ensures value { seen_expr result ≡ tree.NotExpr at (seen_expr operand) }
{
    Expr {
        at,
        kind: ExprKind::Not(operand),
    }
}

/// The length of an array.
pub fn len(at: u32, operand: Boxed<Expr>) -> Expr
    ensures value { seen_expr result ≡ tree.LenExpr at (seen_expr operand) }
{
    Expr {
        at,
        kind: ExprKind::Len(operand),
    }
}

/// An operator between two operands.
pub fn binary(at: u32, op: Op, left: Boxed<Expr>, right: Boxed<Expr>) -> Expr
    ensures value { seen_expr result ≡ tree.BinaryExpr at op (seen_expr left) (seen_expr right) }
{
    Expr {
        at,
        kind: ExprKind::Binary(op, left, right),
    }
}

/// A test of a type.
pub fn is(at: u32, operand: Boxed<Expr>, ty: Ty) -> Expr
    ensures value { seen_expr result ≡ tree.IsExpr at (seen_expr operand) (seen_ty ty) }
{
    Expr {
        at,
        kind: ExprKind::Is(operand, ty),
    }
}

/// An item of an array.
pub fn index(at: u32, array: Boxed<Expr>, number: Boxed<Expr>) -> Expr
    ensures value { seen_expr result ≡ tree.IndexExpr at (seen_expr array) (seen_expr number) }
{
    Expr {
        at,
        kind: ExprKind::Index(array, number),
    }
}

/// A field of a record.
pub fn field(at: u32, whole: Boxed<Expr>, name: Name) -> Expr
    ensures value { seen_expr result ≡ tree.FieldExpr at (seen_expr whole) name }
{
    Expr {
        at,
        kind: ExprKind::Field(whole, name),
    }
}

/// An array of these items.
pub fn list(at: u32, items: Items<Expr>) -> Expr
    ensures value { seen_expr result ≡ tree.ListExpr at (tree.exprs_of (seen_exprs items)) }
{
    Expr {
        at,
        kind: ExprKind::List(items),
    }
}

/// An array of one item many times.
pub fn repeat(at: u32, item: Boxed<Expr>, count: Boxed<Expr>) -> Expr
    ensures value { seen_expr result ≡ tree.RepeatExpr at (seen_expr item) (seen_expr count) }
{
    Expr {
        at,
        kind: ExprKind::Repeat(item, count),
    }
}

/// A record of these fields, in this order.
pub fn record(at: u32, fields: Items<(Name, Expr)>) -> Expr
    ensures value { seen_expr result ≡ tree.RecordExpr at (seen_fields fields) }
{
    Expr {
        at,
        kind: ExprKind::Record(fields),
    }
}

/// A quantifier of one range.
pub fn quant(
    at: u32,
    all: bool,
    variable: u32,
    from: Boxed<Expr>,
    to: Boxed<Expr>,
    body: Boxed<Expr>,
) -> Expr
    ensures value { seen_expr result ≡ tree.QuantExpr at all variable (seen_expr from) (seen_expr to) (seen_expr body) }
{
    Expr {
        at,
        kind: ExprKind::Quant(all, variable, from, to, body),
    }
}
