//! Values that come straight into the register of a variable, in place of a free one.
//!
//! Each question is answered in constant time.
ghost use Rattle.std.specs.Prelude.{◌≡◌};
ghost use Rattle.wy_core.specs.CoreSeen.{seen_expr};
ghost use Rattle.wy_code_spec.specs.compiled.Straight as spec;

use crate::operands::read;
use wy_core::{Expr, ExprKind, Op};
use wy_live::Variables;

/// Whether the operator is one instruction on two numbers, which leaves nothing to be released.
fn is_on_numbers(op: Op) -> bool
    ensures value { result ≡ spec.is_on_numbers op }
{
    match op {
        Op::Equal => false,
        Op::And => false,
        Op::Or => false,
        _ => true,
    }
}

/// Whether the last instruction of an expression behind which this is live may put the value elsewhere
/// than into the free register: no list and no record that was an operand stays there.
pub fn is_straight(expr: &Expr, live: &Variables) -> bool
    ensures value { result ≡ spec.is_straight (seen_expr expr.now) live.now }
{
    match &expr.kind {
        ExprKind::Null => true,
        ExprKind::Bool(_) => true,
        ExprKind::Int(_) => true,
        ExprKind::Var(_) => true,
        ExprKind::Call(_, _) => false,
        ExprKind::Neg(_) => true,
        ExprKind::Not(_) => true,
        ExprKind::Len(operand) => read(operand.get(), live).is_some(),
        ExprKind::Binary(op, _, _) => is_on_numbers(*op),
        ExprKind::Is(_, _) => false,
        ExprKind::Index(array, _) => read(array.get(), live).is_some(),
        ExprKind::Field(whole, _) => read(whole.get(), live).is_some(),
        ExprKind::List(_) => false,
        ExprKind::Repeat(_, _) => false,
        ExprKind::Record(_) => false,
        ExprKind::Quant(_, _, _, _, _) => false,
    }
}
