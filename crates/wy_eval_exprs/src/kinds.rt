//! What a type asks of a value's kind.
ghost use Rattle.std.specs.Prelude.{◌≡◌, map};
ghost use Rattle.wy_core.specs.CoreSeen.{field_tys_of, seen_ty};
ghost use Rattle.wy_value.specs.Seen.{seen};
ghost use Rattle.wy_sem.specs.TypeTests as spec;
ghost use Rattle.wy_eval_exprs.specs.Operands.{parts_of};

use crate::numbers::is_int;
use wy_core::Ty;
use wy_data::Name;
use wy_value::Value;

/// Whether the value is null.
pub fn is_null(value: &Value) -> bool
    ensures value { result ≡ spec.is_null (seen value.now) }
{
    match value {
        Value::Null => true,
        Value::Bool(_) => false,
        Value::Int(_) => false,
        Value::Array(_) => false,
        Value::Record(_) => false,
    }
}

/// Whether the value is a truth value.
pub fn is_truth(value: &Value) -> bool
    ensures value { result ≡ spec.is_truth (seen value.now) }
{
    match value {
        Value::Null => false,
        Value::Bool(_) => true,
        Value::Int(_) => false,
        Value::Array(_) => false,
        Value::Record(_) => false,
    }
}

/// Whether the value is a number of `int`.
pub fn is_whole(value: &Value) -> bool
    ensures value { result ≡ spec.is_whole (seen value.now) }
{
    match value {
        Value::Null => false,
        Value::Bool(_) => false,
        Value::Int(number) => is_int(*number),
        Value::Array(_) => false,
        Value::Record(_) => false,
    }
}

/// Whether the record has exactly these fields, in order.
pub fn same_names(fields: &[(Name, Value)], tys: &[(Name, Ty)]) -> bool
    ensures value { result ≡ spec.same_names (parts_of fields.now) (field_tys_of (map (λ f. (f.0, seen_ty f.1)) tys.now)) }
{
    let mut number = 0;
    for field in fields {
        if number >= tys.len() {
            return false;
        }
        if !field.0.is(&tys[number].0) {
            return false;
        }
        number += 1;
    }
    if number < tys.len() {
        return false;
    }
    true
}
