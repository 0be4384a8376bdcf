//! Lists of values, from which the candidates of a type are made.
ghost use Rattle.std.specs.Prelude.{◌≡◌, ◌∷◌, [], ◌++◌, IfOk, cond, map, take};
ghost use Rattle.wy_core.specs.CoreSeen.{seen_ty};
ghost use Rattle.wy_types.specs.Names.{types_of};
ghost use Rattle.wy_value.specs.Datum.{Null};
ghost use Rattle.wy_value.specs.Seen.{seen};
ghost use Rattle.wy_probe.specs.Candidates as spec;
ghost use Rattle.wy_probe.specs.Tables.{data_in};

use std::alloc::{AllocError, Global};
use wy_core::Ty;
use wy_items::Items;
use wy_types::Names;
use wy_types_member::member;
use wy_value::{INT_MAX, INT_MIN, Value};

/// The most values of a type.
pub const MOST: usize = 64;

/// How many values of a part are put together with others.
const FEW: usize = 4;

/// The list of null alone.
pub fn null_alone(alloc: Global) -> Result<Items<Value>, AllocError>
    ensures value { IfOk result (λ made. data_in made ≡ Null ∷ []) }
{
    let mut made = Items::new(alloc);
    made.push(Value::Null)?;
    Ok(made)
}

/// The truth values behind others.
pub fn with_truths(made: Items<Value>) -> Result<Items<Value>, AllocError>
    ensures value { IfOk result (λ more. data_in more ≡ data_in made ++ spec.truths) }
{
    let mut made = made;
    made.push(Value::Bool(false))?;
    made.push(Value::Bool(true))?;
    Ok(made)
}

/// The numbers that are tried, behind others.
pub fn with_ints(made: Items<Value>) -> Result<Items<Value>, AllocError>
    ensures value { IfOk result (λ more. data_in more ≡ data_in made ++ spec.ints) }
{
    let mut made = made;
    made.push(Value::Int(0))?;
    made.push(Value::Int(1))?;
    made.push(Value::Int(-1))?;
    made.push(Value::Int(2))?;
    made.push(Value::Int(3))?;
    made.push(Value::Int(INT_MAX))?;
    made.push(Value::Int(INT_MIN))?;
    Ok(made)
}

/// The values that are tried where any is taken.
pub fn anything(alloc: Global) -> Result<Items<Value>, AllocError>
    ensures value { IfOk result (λ made. data_in made ≡ spec.anything) }
{
    let made = null_alone(alloc)?;
    let made = with_truths(made)?;
    let mut made = with_ints(made)?;
    made.push(Value::Array(Items::new(alloc)))?;
    Ok(made)
}

/// The values once more.
pub fn copied(alloc: Global, values: &[Value]) -> Result<Items<Value>, AllocError>
    ensures value { IfOk result (λ made. made ≡ values.now) }
{
    let mut made = Items::new(alloc);
    for value in values {
        made.push(value.copy(alloc)?)?;
    }
    Ok(made)
}

/// The first of the values, as many as a list may have.
pub fn cut(values: Items<Value>) -> Items<Value>
    ensures value { data_in result ≡ take spec.most (data_in values) }
{
    let mut row = values.into_vec();
    row.truncate(MOST);
    Items::from_vec(row)
}

/// The first few of the values.
pub fn first_few(values: &[Value]) -> &[Value]
    ensures value { data_in result.now ≡ take spec.few (data_in values.now) }
{
    if values.len() <= FEW {
        return values;
    }
    &values[..FEW]
}

// Whether the value is one of these.
fn is_among(value: &Value, others: &[Value]) -> bool
    ensures value { result ≡ spec.is_among (seen value.now) (data_in others.now) }
{
    for other in others {
        if value.is(other) {
            return true;
        }
    }
    false
}

/// The first list, and then what the second has besides. It takes time in the product of their lengths.
pub fn joined(alloc: Global, first: &[Value], second: &[Value]) -> Result<Items<Value>, AllocError>
    ensures value { IfOk result (λ made. data_in made ≡ spec.joined (data_in first.now) (data_in second.now)) }
{
    let mut made = copied(alloc, first)?;
    for value in second {
        if !is_among(value, first) {
            made.push(value.copy(alloc)?)?;
        }
    }
    Ok(made)
}

/// Those of the values that are in the type.
pub fn those_in(
    alloc: Global,
    names: &Names,
    ty: &Ty,
    values: &[Value],
) -> Result<Items<Value>, AllocError>
    ensures value { IfOk result (λ made. data_in made ≡ spec.those_in (types_of names.now) (seen_ty ty.now) (data_in values.now)) }
{
    let mut made = Items::new(alloc);
    for value in values {
        if member(names, value, ty) {
            made.push(value.copy(alloc)?)?;
        }
    }
    Ok(made)
}
