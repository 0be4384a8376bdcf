//! What a value is, its parts aside.
ghost use Rattle.std.specs.Prelude.{◌≡◌, List};
ghost use Rattle.wy_types.specs.Names.{Declared as SpecDeclared, shape_of};
ghost use Rattle.wy_types.specs.Shape.{is_bool as shape_is_bool, is_int as shape_is_int, is_null as shape_is_null, is_record as shape_is_record};
ghost use Rattle.wy_value.specs.Seen.{seen};

use wy_value::Value;

/// Whether the value is null.
pub fn is_null(value: &Value) -> bool
    ensures value { (names : List SpecDeclared) → result ≡ shape_is_null (shape_of names (seen value.now)) }
{
    match value {
        Value::Null => true,
        Value::Bool(_) => false,
        Value::Int(_) => false,
        Value::Array(_) => false,
        Value::Record(_) => false,
    }
}

/// Whether the value is a truth value.
pub fn is_truth(value: &Value) -> bool
    ensures value { (names : List SpecDeclared) → result ≡ shape_is_bool (shape_of names (seen value.now)) }
{
    match value {
        Value::Null => false,
        Value::Bool(_) => true,
        Value::Int(_) => false,
        Value::Array(_) => false,
        Value::Record(_) => false,
    }
}

/// Whether the value is a number.
pub fn is_whole(value: &Value) -> bool
    ensures value { (names : List SpecDeclared) → result ≡ shape_is_int (shape_of names (seen value.now)) }
{
    match value {
        Value::Null => false,
        Value::Bool(_) => false,
        Value::Int(_) => true,
        Value::Array(_) => false,
        Value::Record(_) => false,
    }
}

/// Whether the value is a record.
pub fn is_record(value: &Value) -> bool
    ensures value { (names : List SpecDeclared) → result ≡ shape_is_record (shape_of names (seen value.now)) }
{
    match value {
        Value::Null => false,
        Value::Bool(_) => false,
        Value::Int(_) => false,
        Value::Array(_) => false,
        Value::Record(_) => true,
    }
}
