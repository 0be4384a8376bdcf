//! Operands that are variables: they are read in the register of their variable.
//!
//! A variable that is live behind an operation keeps its value till then, so its register is read in
//! place, and nothing is shared. Where the operand must be a number or a truth value, and nothing that
//! could give the variable up comes between, it is read in place although it isn't live behind: a number
//! that stays in a register holds no memory. Each of these asks in constant time.
ghost use Rattle.std.specs.Prelude.{◌≡◌, IfOk};
ghost use Rattle.wy_core.specs.CoreSeen.{seen_expr};
ghost use Rattle.wy_code_spec.specs.compiled.Operands as spec;
ghost use Rattle.wy_live.specs.Walks as lives;

use crate::made::Made;
use wy_code::pieces::NoMemory;
use wy_core::{Expr, ExprKind, Op};
use wy_live::Variables;

/// The variable that an expression is.
pub fn variable_in(expr: &Expr) -> Option<u32>
    ensures value { result ≡ spec.variable_in (seen_expr expr.now) }
{
    match &expr.kind {
        ExprKind::Null => None,
        ExprKind::Bool(_) => None,
        ExprKind::Int(_) => None,
        ExprKind::Var(variable) => Some(*variable),
        ExprKind::Call(_, _) => None,
        ExprKind::Neg(_) => None,
        ExprKind::Not(_) => None,
        ExprKind::Len(_) => None,
        ExprKind::Binary(_, _, _) => None,
        ExprKind::Is(_, _) => None,
        ExprKind::Index(_, _) => None,
        ExprKind::Field(_, _) => None,
        ExprKind::List(_) => None,
        ExprKind::Repeat(_, _) => None,
        ExprKind::Record(_) => None,
        ExprKind::Quant(_, _, _, _, _) => None,
    }
}

/// A variable where it is live.
fn where_live(variable: Option<u32>, live: &Variables) -> Option<u32>
    ensures value { result ≡ spec.where_live variable live.now }
{
    match variable {
        None => None,
        Some(variable) => {
            if live.has(variable) {
                Some(variable)
            } else {
                None
            }
        }
    }
}

/// Whether it is a variable or a number, which gives nothing up while it is evaluated.
fn is_still(expr: &Expr) -> bool
    ensures value { result ≡ spec.is_still (seen_expr expr.now) }
{
    match &expr.kind {
        ExprKind::Null => false,
        ExprKind::Bool(_) => false,
        ExprKind::Int(_) => true,
        ExprKind::Var(_) => true,
        ExprKind::Call(_, _) => false,
        ExprKind::Neg(_) => false,
        ExprKind::Not(_) => false,
        ExprKind::Len(_) => false,
        ExprKind::Binary(_, _, _) => false,
        ExprKind::Is(_, _) => false,
        ExprKind::Index(_, _) => false,
        ExprKind::Field(_, _) => false,
        ExprKind::List(_) => false,
        ExprKind::Repeat(_, _) => false,
        ExprKind::Record(_) => false,
        ExprKind::Quant(_, _, _, _, _) => false,
    }
}

/// The variable that an operand is read in, of an operation behind which this is live.
pub fn read(expr: &Expr, live: &Variables) -> Option<u32>
    ensures value { result ≡ spec.read (seen_expr expr.now) live.now }
{
    where_live(variable_in(expr), live)
}

/// The same of a first number, in front of a second operand.
fn read_first(left: &Expr, right: &Expr, live: &Variables) -> Option<u32>
    ensures value { result ≡ spec.read_first (seen_expr left.now) (seen_expr right.now) live.now }
{
    if is_still(right) {
        variable_in(left)
    } else {
        read(left, live)
    }
}

/// The same of the first operand of an operator.
pub fn first_read(op: Op, left: &Expr, right: &Expr, live: &Variables) -> Option<u32>
    ensures value { result ≡ spec.first_read op (seen_expr left.now) (seen_expr right.now) live.now }
{
    match op {
        Op::Equal => read(left, live),
        Op::And => None,
        Op::Or => None,
        _ => read_first(left, right, live),
    }
}

/// The same of the second operand of an operator, behind which only the operation comes.
pub fn second_read(op: Op, right: &Expr, live: &Variables) -> Option<u32>
    ensures value { result ≡ spec.second_read op (seen_expr right.now) live.now }
{
    match op {
        Op::Equal => read(right, live),
        Op::And => None,
        Op::Or => None,
        _ => variable_in(right),
    }
}

/// The register of an operand: its variable's, or the one that it is evaluated into.
pub fn standing(place: Option<u32>, register: u32) -> u32
    ensures value { result ≡ spec.standing place register }
{
    match place {
        None => register,
        Some(variable) => variable,
    }
}

/// Nothing has to be released of an operand that is read in its register.
pub fn plain_or_read(place: Option<u32>, plain: bool) -> bool
    ensures value { result ≡ spec.plain_or_read place plain }
{
    match place {
        None => plain,
        Some(_) => true,
    }
}

/// A variable that is read in its register is live before that, and no step is made.
pub fn in_place(expr: &Expr, behind: Made) -> Result<Made, NoMemory>
    ensures value { IfOk result (λ m. m.steps ≡ behind.steps) }
    ensures live { IfOk result (λ m. m.live ≡ lives.before (seen_expr expr.now) behind.live) }
{
    let Made { live, steps } = behind;
    let live = wy_live::before(expr, live)?;
    Ok(Made { live, steps })
}
