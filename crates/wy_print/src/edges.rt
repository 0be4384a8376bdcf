//! What an expression's text is like, before it is written: its level, and whether it begins or ends
//! with a bar. The level needs one look, and a bar is looked for along one edge of the tree.
ghost use Rattle.std.specs.Prelude.{◌≡◌, nat_lt};
ghost use Rattle.wy_print.specs.ExprText as spec;

use crate::levels::{COMPARISON, POSTFIX, SUM, UNARY, level_of, needs_left, needs_right};
use wy_ast::{Expr, ExprKind};

/// The level of the grammar that gives the expression.
pub fn level(expr: &Expr) -> u8
    ensures value { result ≡ (spec.shown expr.now).level }
{
    match &expr.kind {
        ExprKind::Null | ExprKind::Bool(_) | ExprKind::Int(_) | ExprKind::Text(_) => POSTFIX,
        ExprKind::Var(_) | ExprKind::Call(_, _) => POSTFIX,
        ExprKind::Neg(_) | ExprKind::Not(_) => UNARY,
        ExprKind::Len(_) => POSTFIX,
        ExprKind::Binary(op, _, _) => level_of(*op),
        ExprKind::Is(_, _) => COMPARISON,
        ExprKind::Index(_, _) | ExprKind::Field(_, _) => POSTFIX,
        ExprKind::List(_) | ExprKind::Repeat(_, _) | ExprKind::Record(_) => POSTFIX,
        ExprKind::Quant(_, _, _) => POSTFIX,
    }
}

/// Whether its level is below.
pub fn is_below(expr: &Expr, lowest: u8) -> bool
    ensures value { result ≡ nat_lt (spec.shown expr.now).level lowest }
{
    level(expr) < lowest
}

/// Whether it begins with a bar, with or without brackets.
#[cycle(begins)]
pub fn bracketed_begins(brackets: bool, expr: &Expr) -> bool
    ensures value { result ≡ (spec.bracketed brackets (spec.shown expr.now)).begins }
{
    if brackets {
        return false;
    }
    begins(expr)
}

#[cycle(begins)]
fn begins(expr: &Expr) -> bool
    ensures value { result ≡ (spec.shown expr.now).begins }
{
    match &expr.kind {
        ExprKind::Null | ExprKind::Bool(_) | ExprKind::Int(_) | ExprKind::Text(_) => false,
        ExprKind::Var(_) | ExprKind::Call(_, _) => false,
        ExprKind::Neg(_) | ExprKind::Not(_) => false,
        ExprKind::Len(_) => true,
        ExprKind::Binary(op, left, _) => {
            let left = left.get();
            bracketed_begins(needs_left(*op, level(left)), left)
        }
        ExprKind::Is(operand, _) => {
            let operand = operand.get();
            bracketed_begins(is_below(operand, SUM), operand)
        }
        ExprKind::Index(array, _) => {
            let array = array.get();
            bracketed_begins(is_below(array, POSTFIX), array)
        }
        ExprKind::Field(whole, _) => {
            let whole = whole.get();
            bracketed_begins(is_below(whole, POSTFIX), whole)
        }
        ExprKind::List(_) | ExprKind::Repeat(_, _) | ExprKind::Record(_) => false,
        ExprKind::Quant(_, _, _) => false,
    }
}

/// Whether it ends with a bar, with or without brackets.
#[cycle(ends)]
pub fn bracketed_ends(brackets: bool, expr: &Expr) -> bool
    ensures value { result ≡ (spec.bracketed brackets (spec.shown expr.now)).ends }
{
    if brackets {
        return false;
    }
    ends(expr)
}

#[cycle(ends)]
fn ends(expr: &Expr) -> bool
    ensures value { result ≡ (spec.shown expr.now).ends }
{
    match &expr.kind {
        ExprKind::Null | ExprKind::Bool(_) | ExprKind::Int(_) | ExprKind::Text(_) => false,
        ExprKind::Var(_) | ExprKind::Call(_, _) => false,
        ExprKind::Neg(operand) | ExprKind::Not(operand) => {
            let operand = operand.get();
            bracketed_ends(is_below(operand, UNARY), operand)
        }
        ExprKind::Len(_) => true,
        ExprKind::Binary(op, _, right) => {
            let right = right.get();
            bracketed_ends(needs_right(*op, level(right)), right)
        }
        ExprKind::Is(_, _) => false,
        ExprKind::Index(_, _) | ExprKind::Field(_, _) => false,
        ExprKind::List(_) | ExprKind::Repeat(_, _) | ExprKind::Record(_) => false,
        ExprKind::Quant(_, _, _) => false,
    }
}
