//! Values.
ghost use Rattle.std.specs.Prelude.{◌≡◌, IfOk, IsTrue, ◌↔◌};

use std::alloc::{AllocError, Global};
use wy_data::Name;
use wy_reading::Items;

/// What a program computes with. The fields of a record stand by rising bytes of their names.
#[cycle(value)]
#[derive(Drop)]
pub enum Value {
    Null,
    Bool(bool),
    /// A number, from `INT_MIN` to `INT_MAX` in every value that the calls of these crates give.
    Int(i128),
    Array(Items<Value>),
    Record(Items<(Name, Value)>),
}

impl Value {
    /// The same value once more, in time linear in its size.
    #[cycle(copy)]
    pub fn copy(&self, alloc: Global) -> Result<Value, AllocError>
        ensures value { IfOk result (λ copy. copy ≡ self.now) }
    {
        match self {
            Value::Null => Ok(Value::Null),
            Value::Bool(b) => Ok(Value::Bool(*b)),
            Value::Int(n) => Ok(Value::Int(*n)),
            Value::Array(items) => Ok(Value::Array(copy_items(alloc, items.as_slice())?)),
            Value::Record(fields) => Ok(Value::Record(copy_fields(alloc, fields.as_slice())?)),
        }
    }

    /// Whether both are the same value.
    #[cycle(equality)]
    pub fn is(&self, other: &Value) -> bool
        ensures complete { IsTrue result ↔ (self.now ≡ other.now) }
    {
        match (self, other) {
            (Value::Null, Value::Null) => true,
            (Value::Bool(a), Value::Bool(b)) => *a == *b,
            (Value::Int(a), Value::Int(b)) => *a == *b,
            (Value::Array(a), Value::Array(b)) => same_items(a.as_slice(), b.as_slice()),
            (Value::Record(a), Value::Record(b)) => same_fields(a.as_slice(), b.as_slice()),
            _ => false,
        }
    }
}

#[cycle(copy)]
fn copy_items(alloc: Global, items: &[Value]) -> Result<Items<Value>, AllocError>
    ensures value { IfOk result (λ copy. copy ≡ items.now) }
{
    let mut made = Items::new(alloc);
    for item in items {
        made.push(item.copy(alloc)?)?;
    }
    Ok(made)
}

#[cycle(copy)]
fn copy_fields(alloc: Global, fields: &[(Name, Value)]) -> Result<Items<(Name, Value)>, AllocError>
    ensures value { IfOk result (λ copy. copy ≡ fields.now) }
{
    let mut made = Items::new(alloc);
    for field in fields {
        let name = field.0.copy(alloc)?;
        made.push((name, field.1.copy(alloc)?))?;
    }
    Ok(made)
}

#[cycle(equality)]
fn same_items(a: &[Value], b: &[Value]) -> bool
    ensures complete { IsTrue result ↔ (a.now ≡ b.now) }
{
    if a.len() != b.len() {
        return false;
    }
    for i in 0..a.len() {
        if !a[i].is(&b[i]) {
            return false;
        }
    }
    true
}

#[cycle(equality)]
fn same_fields(a: &[(Name, Value)], b: &[(Name, Value)]) -> bool
    ensures complete { IsTrue result ↔ (a.now ≡ b.now) }
{
    if a.len() != b.len() {
        return false;
    }
    for i in 0..a.len() {
        if !a[i].0.is(&b[i].0) || !a[i].1.is(&b[i].1) {
            return false;
        }
    }
    true
}
