//! Nodes of expressions, made of measured parts.
ghost use Rattle.std.specs.Prelude.{◌≡◌, IfOk};
ghost use Rattle.wy_parse_grammar.specs.Trees as trees;

use crate::measured::{Measured, both, boxed, expr_node};
use std::alloc::{AllocError, Global};
use wy_ast::{Expr, ExprKind, Op, Ty};
use wy_data::Name;
use wy_items::{Boxed, Items};

/// A field's name and value, or a bound name and the ends of its range, as many as were read.
pub type Fields = Measured<Items<(Name, Expr)>>;

pub type Ranges = Measured<Items<(Name, Expr, Expr)>>;

/// A node without parts.
pub fn leaf(at: u32, kind: ExprKind) -> Measured<Expr>
    ensures { result ≡ trees.leaf at kind }
{
    expr_node(at, Measured::Low(kind, 0))
}

/// `- x`
pub fn neg_node(
    alloc: Global,
    at: u32,
    operand: Measured<Expr>,
) -> Result<Measured<Expr>, AllocError>
    ensures { IfOk result (λ e. e ≡ trees.neg at operand) }
{
    let kind = match boxed(alloc, operand)? {
        Measured::Low(operand, height) => Measured::Low(ExprKind::Neg(operand), height),
        Measured::High(at) => Measured::High(at),
    };
    Ok(expr_node(at, kind))
}

/// `!x`
pub fn not_node(
    alloc: Global,
    at: u32,
    operand: Measured<Expr>,
) -> Result<Measured<Expr>, AllocError>
    ensures { IfOk result (λ e. e ≡ trees.not_expr at operand) }
{
    let kind = match boxed(alloc, operand)? {
        Measured::Low(operand, height) => Measured::Low(ExprKind::Not(operand), height),
        Measured::High(at) => Measured::High(at),
    };
    Ok(expr_node(at, kind))
}

/// `|x|`
pub fn len_node(at: u32, operand: Measured<Boxed<Expr>>) -> Measured<Expr>
    ensures { result ≡ trees.len at operand }
{
    let kind = match operand {
        Measured::Low(operand, height) => Measured::Low(ExprKind::Len(operand), height),
        Measured::High(at) => Measured::High(at),
    };
    expr_node(at, kind)
}

/// An operator between two operands.
pub fn binary_node(
    at: u32,
    op: Op,
    left: Measured<Boxed<Expr>>,
    right: Measured<Boxed<Expr>>,
) -> Measured<Expr>
    ensures { result ≡ trees.binary at op left right }
{
    let kind = match both(left, right) {
        Measured::Low((left, right), height) => {
            Measured::Low(ExprKind::Binary(op, left, right), height)
        }
        Measured::High(at) => Measured::High(at),
    };
    expr_node(at, kind)
}

/// `x is T`
pub fn is_node(at: u32, operand: Measured<Boxed<Expr>>, ty: Measured<Ty>) -> Measured<Expr>
    ensures { result ≡ trees.is_expr at operand ty }
{
    let kind = match both(operand, ty) {
        Measured::Low((operand, ty), height) => Measured::Low(ExprKind::Is(operand, ty), height),
        Measured::High(at) => Measured::High(at),
    };
    expr_node(at, kind)
}

pub fn index_node(
    at: u32,
    array: Measured<Boxed<Expr>>,
    index: Measured<Boxed<Expr>>,
) -> Measured<Expr>
    ensures { result ≡ trees.index at array index }
{
    let kind = match both(array, index) {
        Measured::Low((array, index), height) => {
            Measured::Low(ExprKind::Index(array, index), height)
        }
        Measured::High(at) => Measured::High(at),
    };
    expr_node(at, kind)
}

pub fn field_node(at: u32, whole: Measured<Boxed<Expr>>, name: Name) -> Measured<Expr>
    ensures { result ≡ trees.field at whole name }
{
    let kind = match whole {
        Measured::Low(whole, height) => Measured::Low(ExprKind::Field(whole, name), height),
        Measured::High(at) => Measured::High(at),
    };
    expr_node(at, kind)
}

pub fn call_node(at: u32, name: Name, args: Measured<Items<Expr>>) -> Measured<Expr>
    ensures { result ≡ trees.call at name args }
{
    let kind = match args {
        Measured::Low(args, height) => Measured::Low(ExprKind::Call(name, args), height),
        Measured::High(at) => Measured::High(at),
    };
    expr_node(at, kind)
}

pub fn list_node(at: u32, items: Measured<Items<Expr>>) -> Measured<Expr>
    ensures { result ≡ trees.list at items }
{
    let kind = match items {
        Measured::Low(items, height) => Measured::Low(ExprKind::List(items), height),
        Measured::High(at) => Measured::High(at),
    };
    expr_node(at, kind)
}

pub fn repeat_node(
    at: u32,
    item: Measured<Boxed<Expr>>,
    count: Measured<Boxed<Expr>>,
) -> Measured<Expr>
    ensures { result ≡ trees.repeat at item count }
{
    let kind = match both(item, count) {
        Measured::Low((item, count), height) => {
            Measured::Low(ExprKind::Repeat(item, count), height)
        }
        Measured::High(at) => Measured::High(at),
    };
    expr_node(at, kind)
}

pub fn record_node(at: u32, fields: Fields) -> Measured<Expr>
    ensures { result ≡ trees.fields at fields }
{
    let kind = match fields {
        Measured::Low(fields, height) => Measured::Low(ExprKind::Record(fields), height),
        Measured::High(at) => Measured::High(at),
    };
    expr_node(at, kind)
}

pub fn range(
    name: Name,
    from: Measured<Boxed<Expr>>,
    to: Measured<Expr>,
) -> Measured<(Name, Expr, Expr)>
    ensures { result ≡ trees.range name from to }
{
    match both(from, to) {
        Measured::Low((from, to), height) => Measured::Low((name, from.into_inner(), to), height),
        Measured::High(at) => Measured::High(at),
    }
}

pub fn quant_node(at: u32, all: bool, ranges: Ranges, body: Measured<Boxed<Expr>>) -> Measured<Expr>
    ensures { result ≡ trees.quant at all ranges body }
{
    let kind = match both(ranges, body) {
        Measured::Low((ranges, body), height) => {
            Measured::Low(ExprKind::Quant(all, ranges, body), height)
        }
        Measured::High(at) => Measured::High(at),
    };
    expr_node(at, kind)
}
