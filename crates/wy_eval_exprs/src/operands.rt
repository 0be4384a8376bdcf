//! What an operator wants of its operands. What isn't of the wanted kind is a fault of kind member.
ghost use Rattle.wy_value.specs.Datum.{Whole};
ghost use Rattle.wy_value.specs.Seen.{seen};
ghost use Rattle.wy_eval_exprs.specs.Operands.{FieldsOf, ItemsOf, NeededOf, NumberOf, NumbersOf, TruthOf};

use crate::stop::Stop;
use wy_data::Name;
use wy_items::Items;
use wy_term::CondKind;
use wy_value::Value;

/// The number that an operand must be.
pub fn as_number(at: u32, value: &Value) -> Result<i128, Stop>
    ensures value { NumberOf at (seen value.now) result }
{
    match value {
        Value::Int(number) => Ok(*number),
        Value::Null => Err(Stop::Fault(CondKind::Member, at)),
        Value::Bool(_) => Err(Stop::Fault(CondKind::Member, at)),
        Value::Array(_) => Err(Stop::Fault(CondKind::Member, at)),
        Value::Record(_) => Err(Stop::Fault(CondKind::Member, at)),
    }
}

/// The numbers that both operands must be.
pub fn as_numbers(at: u32, left: &Value, right: &Value) -> Result<(i128, i128), Stop>
    ensures value { NumbersOf at (seen left.now) (seen right.now) result }
{
    match left {
        Value::Int(number) => second_number(at, *number, right),
        Value::Null => Err(Stop::Fault(CondKind::Member, at)),
        Value::Bool(_) => Err(Stop::Fault(CondKind::Member, at)),
        Value::Array(_) => Err(Stop::Fault(CondKind::Member, at)),
        Value::Record(_) => Err(Stop::Fault(CondKind::Member, at)),
    }
}

// The first number, and the one that the second operand must be.
fn second_number(at: u32, first: i128, right: &Value) -> Result<(i128, i128), Stop>
    ensures value { NumbersOf at (Whole first) (seen right.now) result }
{
    match right {
        Value::Int(number) => Ok((first, *number)),
        Value::Null => Err(Stop::Fault(CondKind::Member, at)),
        Value::Bool(_) => Err(Stop::Fault(CondKind::Member, at)),
        Value::Array(_) => Err(Stop::Fault(CondKind::Member, at)),
        Value::Record(_) => Err(Stop::Fault(CondKind::Member, at)),
    }
}

/// The truth value that an operand must be.
pub fn as_truth(at: u32, value: &Value) -> Result<bool, Stop>
    ensures value { TruthOf at (seen value.now) result }
{
    match value {
        Value::Bool(truth) => Ok(*truth),
        Value::Null => Err(Stop::Fault(CondKind::Member, at)),
        Value::Int(_) => Err(Stop::Fault(CondKind::Member, at)),
        Value::Array(_) => Err(Stop::Fault(CondKind::Member, at)),
        Value::Record(_) => Err(Stop::Fault(CondKind::Member, at)),
    }
}

/// The items of the array that an operand must be.
pub fn as_items(at: u32, value: &Value) -> Result<&Items<Value>, Stop>
    ensures value { ItemsOf (λ items. items.now) at (seen value.now) result }
{
    match value {
        Value::Array(items) => Ok(items),
        Value::Null => Err(Stop::Fault(CondKind::Member, at)),
        Value::Bool(_) => Err(Stop::Fault(CondKind::Member, at)),
        Value::Int(_) => Err(Stop::Fault(CondKind::Member, at)),
        Value::Record(_) => Err(Stop::Fault(CondKind::Member, at)),
    }
}

/// The fields of the record that an operand must be.
pub fn as_fields(at: u32, value: &Value) -> Result<&[(Name, Value)], Stop>
    ensures value { FieldsOf (λ fields. fields.now) at (seen value.now) result }
{
    match value {
        Value::Record(fields) => Ok(fields.as_slice()),
        Value::Null => Err(Stop::Fault(CondKind::Member, at)),
        Value::Bool(_) => Err(Stop::Fault(CondKind::Member, at)),
        Value::Int(_) => Err(Stop::Fault(CondKind::Member, at)),
        Value::Array(_) => Err(Stop::Fault(CondKind::Member, at)),
    }
}

/// What must be there.
pub fn needed(at: u32, value: Option<Value>) -> Result<Value, Stop>
    ensures value { NeededOf at value result }
{
    match value {
        Some(value) => Ok(value),
        None => Err(Stop::Fault(CondKind::Member, at)),
    }
}
