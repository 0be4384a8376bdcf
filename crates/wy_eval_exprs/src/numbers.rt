//! What is computed of two numbers.
ghost use Rattle.std.specs.Prelude.{◌≡◌, ℤ};
ghost use Rattle.wy_core.specs.declared.expressions.Op.TheVariants.{Div, Mod};
ghost use Rattle.wy_value.specs.Seen.{seen};
ghost use Rattle.wy_value.specs.Numbers.{is_int as spec_is_int};
ghost use Rattle.wy_sem.specs.Meter as sem;
ghost use Rattle.wy_sem.specs.Operations as spec;
ghost use Rattle.wy_eval_exprs.specs.Operands.{IsNumber, computed as spec_computed};
ghost use Rattle.wy_eval_exprs.specs.Outcomes.{Gives};

use crate::stop::Stop;
use wy_core::Op;
use wy_term::CondKind;
use wy_value::{INT_MAX, INT_MIN, Value};

/// Whether the number is one of `int`.
pub fn is_int(number: i128) -> bool
    ensures value { result ≡ spec_is_int number }
{
    INT_MIN <= number && number <= INT_MAX
}

/// The number as a value, where it is an `int`. None stands for a number of more than 128 bits.
pub fn in_range(at: u32, number: Option<i128>) -> Result<Value, Stop>
    ensures value { (z : ℤ) → IsNumber number z → (m : sem.Meter) → Gives seen (spec.in_range at z m) result m }
{
    match number {
        Some(number) => {
            if is_int(number) {
                return Ok(Value::Int(number));
            }
            Err(Stop::Fault(CondKind::Range, at))
        }
        None => Err(Stop::Fault(CondKind::Range, at)),
    }
}

/// An operator on two numbers. `&&` and `||` have no numbers for operands.
pub fn computed(op: Op, at: u32, x: i128, y: i128) -> Result<Value, Stop>
    ensures value { (m : sem.Meter) → Gives seen (spec_computed op at x y m) result m }
{
    match op {
        Op::Add => in_range(at, x.checked_add(y)),
        Op::Sub => in_range(at, x.checked_sub(y)),
        Op::Mul => in_range(at, x.checked_mul(y)),
        Op::Div => quotient(at, x, y),
        Op::Mod => remainder(at, x, y),
        Op::Equal => Ok(Value::Bool(x == y)),
        Op::Less => Ok(Value::Bool(x < y)),
        Op::LessEqual => Ok(Value::Bool(x <= y)),
        Op::Greater => Ok(Value::Bool(y < x)),
        Op::GreaterEqual => Ok(Value::Bool(y <= x)),
        Op::And => Err(Stop::Fault(CondKind::Member, at)),
        Op::Or => Err(Stop::Fault(CondKind::Member, at)),
    }
}

// The Euclidean quotient.
fn quotient(at: u32, x: i128, y: i128) -> Result<Value, Stop>
    ensures value { (m : sem.Meter) → Gives seen (spec_computed Div at x y m) result m }
{
    if y == 0 {
        return Err(Stop::Fault(CondKind::Divisor, at));
    }
    if y == -1 {
        return in_range(at, x.checked_neg());
    }
    in_range(at, Some(x.div_euclid(y)))
}

// The Euclidean remainder, which isn't negative.
fn remainder(at: u32, x: i128, y: i128) -> Result<Value, Stop>
    ensures value { (m : sem.Meter) → Gives seen (spec_computed Mod at x y m) result m }
{
    if y == 0 {
        return Err(Stop::Fault(CondKind::Divisor, at));
    }
    if y == -1 {
        return Ok(Value::Int(0));
    }
    Ok(Value::Int(x.rem_euclid(y)))
}
