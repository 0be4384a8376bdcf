//! Arrays of up to two of the values of their items.
ghost use Rattle.std.specs.Prelude.{◌≡◌, ◌++◌, IfOk, map};
ghost use Rattle.wy_value.specs.Seen.{seen};
ghost use Rattle.wy_probe.specs.Candidates as spec;
ghost use Rattle.wy_probe.specs.Tables.{data_in};

use crate::lists::first_few;
use std::alloc::{AllocError, Global};
use wy_items::Items;
use wy_value::Value;

/// The array without items, those of one of the values, and those of two of the first few of them.
pub fn arrays(alloc: Global, values: &[Value]) -> Result<Items<Value>, AllocError>
    ensures value { IfOk result (λ made. data_in made ≡ spec.arrays (data_in values.now)) }
{
    let mut made = Items::new(alloc);
    made.push(Value::Array(Items::new(alloc)))?;
    let made = with_singles(alloc, made, values)?;
    let firsts = first_few(values);
    with_pairs(alloc, made, firsts, firsts)
}

// Behind others, the arrays of one of the values.
fn with_singles(
    alloc: Global,
    made: Items<Value>,
    values: &[Value],
) -> Result<Items<Value>, AllocError>
    ensures value { IfOk result (λ more. data_in more ≡ data_in made ++ map spec.one_item (data_in values.now)) }
{
    let mut made = made;
    for value in values {
        let mut items = Items::new(alloc);
        items.push(value.copy(alloc)?)?;
        made.push(Value::Array(items))?;
    }
    Ok(made)
}

// Behind others, the arrays of one of the first values and one of the second, the second faster.
fn with_pairs(
    alloc: Global,
    made: Items<Value>,
    firsts: &[Value],
    seconds: &[Value],
) -> Result<Items<Value>, AllocError>
    ensures value { IfOk result (λ more. data_in more ≡ data_in made ++ spec.pairs (data_in firsts.now) (data_in seconds.now)) }
{
    let mut made = made;
    for first in firsts {
        made = paired_with(alloc, made, first, seconds)?;
    }
    Ok(made)
}

// Behind others, the arrays of this value and one of the second.
fn paired_with(
    alloc: Global,
    made: Items<Value>,
    first: &Value,
    seconds: &[Value],
) -> Result<Items<Value>, AllocError>
    ensures value { IfOk result (λ more. data_in more ≡ data_in made ++ map (spec.two_items (seen first.now)) (data_in seconds.now)) }
{
    let mut made = made;
    for second in seconds {
        let mut items = Items::new(alloc);
        items.push(first.copy(alloc)?)?;
        items.push(second.copy(alloc)?)?;
        made.push(Value::Array(items))?;
    }
    Ok(made)
}
