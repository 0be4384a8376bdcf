//! Operators on values.
ghost use Rattle.wy_core.specs.declared.expressions.Op.TheVariants.{And, Or};
ghost use Rattle.wy_value.specs.Datum as datum;
ghost use Rattle.wy_value.specs.Datum.{Whole};
ghost use Rattle.wy_value.specs.Seen.{seen};
ghost use Rattle.wy_sem.specs.Meter as sem;
ghost use Rattle.wy_sem.specs.Meter.{Done};
ghost use Rattle.wy_sem.specs.Operations as spec;
ghost use Rattle.wy_eval_exprs.specs.Operands.{IsEarly, computed as spec_computed};
ghost use Rattle.wy_eval_exprs.specs.Outcomes.{Gives};

use crate::numbers::{computed, in_range};
use crate::operands::{as_items, as_number, as_truth};
use crate::stop::Stop;
use wy_core::Op;
use wy_term::CondKind;
use wy_value::Value;

/// Minus the operand.
pub fn negated(at: u32, value: &Value) -> Result<Value, Stop>
    ensures value { (m : sem.Meter) → Gives seen (spec.negated at (seen value.now) m) result m }
{
    let number = as_number(at, value)?;
    in_range(at, number.checked_neg())
}

/// Not the operand.
pub fn denied(at: u32, value: &Value) -> Result<Value, Stop>
    ensures value { (m : sem.Meter) → Gives seen (spec.denied at (seen value.now) m) result m }
{
    let truth = as_truth(at, value)?;
    Ok(Value::Bool(!truth))
}

/// The length of the operand.
pub fn length(at: u32, value: &Value) -> Result<Value, Stop>
    ensures value { (m : sem.Meter) → Gives seen (spec.length_result at (seen value.now) m) result m }
{
    let items = as_items(at, value)?;
    let count = items.len();
    Ok(Value::Int(count as i128))
}

/// The operator on two operands that both were evaluated.
pub fn applied(op: Op, at: u32, left: &Value, right: &Value) -> Result<Value, Stop>
    ensures value { (m : sem.Meter) → Gives seen (spec.applied op at (seen left.now) (seen right.now) m) result m }
{
    match op {
        Op::Equal => Ok(Value::Bool(left.is(right))),
        Op::And => truth_result(at, right),
        Op::Or => truth_result(at, right),
        Op::Add => on_numbers(op, at, left, right),
        Op::Sub => on_numbers(op, at, left, right),
        Op::Mul => on_numbers(op, at, left, right),
        Op::Div => on_numbers(op, at, left, right),
        Op::Mod => on_numbers(op, at, left, right),
        Op::Less => on_numbers(op, at, left, right),
        Op::LessEqual => on_numbers(op, at, left, right),
        Op::Greater => on_numbers(op, at, left, right),
        Op::GreaterEqual => on_numbers(op, at, left, right),
    }
}

fn on_numbers(op: Op, at: u32, left: &Value, right: &Value) -> Result<Value, Stop>
    ensures value { (m : sem.Meter) → Gives seen (spec.numbers at (seen left.now) (seen right.now) (spec_computed op at) m) result m }
{
    match left {
        Value::Int(number) => on_number(op, at, *number, right),
        Value::Null => Err(Stop::Fault(CondKind::Member, at)),
        Value::Bool(_) => Err(Stop::Fault(CondKind::Member, at)),
        Value::Array(_) => Err(Stop::Fault(CondKind::Member, at)),
        Value::Record(_) => Err(Stop::Fault(CondKind::Member, at)),
    }
}

fn on_number(op: Op, at: u32, first: i128, right: &Value) -> Result<Value, Stop>
    ensures value { (m : sem.Meter) → Gives seen (spec.numbers at (Whole first) (seen right.now) (spec_computed op at) m) result m }
{
    match right {
        Value::Int(number) => computed(op, at, first, *number),
        Value::Null => Err(Stop::Fault(CondKind::Member, at)),
        Value::Bool(_) => Err(Stop::Fault(CondKind::Member, at)),
        Value::Array(_) => Err(Stop::Fault(CondKind::Member, at)),
        Value::Record(_) => Err(Stop::Fault(CondKind::Member, at)),
    }
}

fn truth_result(at: u32, value: &Value) -> Result<Value, Stop>
    ensures value { (m : sem.Meter) → Gives seen (spec.as_truth at (seen value.now) (λ b. Done (datum.Truth b)) m) result m }
{
    let truth = as_truth(at, value)?;
    Ok(Value::Bool(truth))
}

/// What `&&` and `||` say by their first operand alone; None where the second one counts.
pub fn early(op: Op, at: u32, left: &Value) -> Result<Option<bool>, Stop>
    ensures value { IsEarly op at (seen left.now) result }
{
    match op {
        Op::And => early_and(at, left),
        Op::Or => early_or(at, left),
        Op::Add => Ok(None),
        Op::Sub => Ok(None),
        Op::Mul => Ok(None),
        Op::Div => Ok(None),
        Op::Mod => Ok(None),
        Op::Equal => Ok(None),
        Op::Less => Ok(None),
        Op::LessEqual => Ok(None),
        Op::Greater => Ok(None),
        Op::GreaterEqual => Ok(None),
    }
}

fn early_and(at: u32, left: &Value) -> Result<Option<bool>, Stop>
    ensures value { IsEarly And at (seen left.now) result }
{
    match left {
        Value::Bool(truth) => {
            if *truth {
                return Ok(None);
            }
            Ok(Some(false))
        }
        Value::Null => Err(Stop::Fault(CondKind::Member, at)),
        Value::Int(_) => Err(Stop::Fault(CondKind::Member, at)),
        Value::Array(_) => Err(Stop::Fault(CondKind::Member, at)),
        Value::Record(_) => Err(Stop::Fault(CondKind::Member, at)),
    }
}

fn early_or(at: u32, left: &Value) -> Result<Option<bool>, Stop>
    ensures value { IsEarly Or at (seen left.now) result }
{
    match left {
        Value::Bool(truth) => {
            if *truth {
                return Ok(Some(true));
            }
            Ok(None)
        }
        Value::Null => Err(Stop::Fault(CondKind::Member, at)),
        Value::Int(_) => Err(Stop::Fault(CondKind::Member, at)),
        Value::Array(_) => Err(Stop::Fault(CondKind::Member, at)),
        Value::Record(_) => Err(Stop::Fault(CondKind::Member, at)),
    }
}
