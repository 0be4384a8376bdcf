//! Numbers for names.
ghost use Rattle.std.specs.Prelude.{◌≡◌, length, string_bytes, IfOk, OnOk};
ghost use Rattle.wy_names_lower.specs.Variables as spec;

use std::alloc::{AllocError, Global};
use wy_data::Name;
use wy_items::Items;
use wy_names_scope::{Entry, Table};

/// The number of a new variable, whose name is put last. More than 2^32 - 1 of them are answered as
/// want of memory.
pub fn fresh(alloc: Global, variables: &mut Items<Name>, name: &Name) -> Result<u32, AllocError>
    ensures variables { OnOk result (variables.new ≡ spec.named variables.old name.now) }
    ensures value { IfOk result (λ n. n ≡ length variables.old) }
{
    let number = variables.len();
    if number >= 4294967295 {
        return Err(AllocError);
    }
    variables.push(name.copy(alloc)?)?;
    Ok(number as u32)
}

/// The number of a new variable which the source doesn't name.
pub fn made(alloc: Global, variables: &mut Items<Name>, text: &str) -> Result<u32, AllocError>
    ensures variables { OnOk result (variables.new ≡ spec.named variables.old text.now) }
    ensures value { IfOk result (λ n. n ≡ length variables.old) }
{
    let name = Name::new(String::from_str(alloc, text)?);
    fresh(alloc, variables, &name)
}

/// The number of a new variable, which is in scope from there on.
pub fn declared(
    alloc: Global,
    scope: &mut Table,
    variables: &mut Items<Name>,
    name: &Name,
) -> Result<u32, AllocError>
    ensures scope { OnOk result (scope.new ≡ spec.declared scope.old variables.old name.now) }
    ensures variables { OnOk result (variables.new ≡ spec.named variables.old name.now) }
    ensures value { IfOk result (λ n. n ≡ length variables.old) }
{
    let number = fresh(alloc, variables, name)?;
    scope.put(alloc, name, Entry::Variable(number))?;
    Ok(number)
}

/// The number of the variable that a name stands for.
pub fn variable_of(entry: Option<Entry>) -> u32
    ensures value { result ≡ spec.variable_of entry }
{
    match entry {
        None => 0,
        Some(Entry::Type(_, _)) => 0,
        Some(Entry::Routine(_)) => 0,
        Some(Entry::Property(_, _)) => 0,
        Some(Entry::Variable(number)) => number,
    }
}

/// The number of the function or method that a name stands for.
pub fn routine_of(entry: Option<Entry>) -> u32
    ensures value { result ≡ spec.routine_of entry }
{
    match entry {
        None => 0,
        Some(Entry::Type(_, _)) => 0,
        Some(Entry::Routine(signature)) => signature.number,
        Some(Entry::Property(_, _)) => 0,
        Some(Entry::Variable(_)) => 0,
    }
}

/// The number of the type that a name stands for.
pub fn type_of(entry: Option<Entry>) -> u32
    ensures value { result ≡ spec.type_of entry }
{
    match entry {
        None => 0,
        Some(Entry::Type(number, _)) => number,
        Some(Entry::Routine(_)) => 0,
        Some(Entry::Property(_, _)) => 0,
        Some(Entry::Variable(_)) => 0,
    }
}
