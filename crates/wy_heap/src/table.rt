//! The table of shapes, which grows by what an imported value brings.
ghost use Rattle.std.specs.Prelude.{◌≡◌, ℕ, List, ◌<◌, Some, IfOk, MatchOption, IsTrue, ◌↔◌, length, slice_get, slice_index_or};
ghost use Rattle.wy_data.specs.Words.{IsName};
ghost use Rattle.wy_value.specs.Seen.{seen_fields};
ghost use Rattle.wy_value.specs.Values.{names_of, Rise, AreFields};
ghost use Rattle.wy_value.specs.Shapes.{IsShapes, named};
ghost use Rattle.wy_heap.specs.Extending.{Extends, IsAbsent, AreNamed, HasNames};

use std::alloc::{AllocError, Global};
use wy_data::Name;
use wy_items::Items;
use wy_value::{Shapes, Value};

// the number of the shape with the names of these fields, which the table gets where it lacks it
pub(crate) fn shape_number(
    alloc: Global,
    table: &mut Shapes,
    fields: &[(Name, Value)],
) -> Result<u32, AllocError>
    requires table { IsShapes table.old }
    requires names { AreFields (seen_fields fields.now) }
    requires rise { Rise (names_of (seen_fields fields.now)) }
    ensures shape { IfOk result (λ n. HasNames table.new n (names_of (seen_fields fields.now))) }
    ensures table { IsShapes table.new }
    ensures extends { Extends table.old table.new }
{
    let list = numbers_of(alloc, table, fields)?;
    if let Some(index) = find_list(table.lists.as_slice(), list.as_slice()) {
        let number = number_of(index)?;
        return Ok(number);
    }
    let number = number_of(table.lists.len())?;
    table.lists.push(Items::from_vec(list))?;
    Ok(number)
}

// the numbers of the names of these fields
fn numbers_of(
    alloc: Global,
    table: &mut Shapes,
    fields: &[(Name, Value)],
) -> Result<Vec<u32>, AllocError>
    requires table { IsShapes table.old }
    requires names { AreFields (seen_fields fields.now) }
    ensures named { IfOk result (λ list. AreNamed table.new list.items (names_of (seen_fields fields.now))) }
    ensures table { IsShapes table.new }
    ensures extends { Extends table.old table.new }
{
    let mut list = Vec::new(alloc);
    for field in fields {
        let number = name_number(alloc, table, &field.0)?;
        list.push(number)?;
    }
    Ok(list)
}

// the number of the name, which the table gets where it lacks it
fn name_number(alloc: Global, table: &mut Shapes, name: &Name) -> Result<u32, AllocError>
    requires table { IsShapes table.old }
    requires name { IsName name.now }
    ensures number { IfOk result (λ n. slice_get table.new.names n ≡ Some name.now) }
    ensures table { IsShapes table.new }
    ensures extends { Extends table.old table.new }
{
    if let Some(index) = find_name(table.names.as_slice(), name) {
        let number = number_of(index)?;
        return Ok(number);
    }
    let number = number_of(table.names.len())?;
    let copy = name.copy(alloc)?;
    table.names.push(copy)?;
    Ok(number)
}

// where the name stands
fn find_name(names: &[Name], name: &Name) -> Option<usize>
    ensures { MatchOption result (IsAbsent names.now name.now) (λ i. slice_get names.now i ≡ Some name.now) }
{
    for (i, other) in names.iter().enumerate() {
        if other.is(name) {
            return Some(i);
        }
    }
    None
}

// where the list stands
fn find_list(lists: &[Items<u32>], list: &[u32]) -> Option<usize>
    ensures { MatchOption result (IsAbsent lists.now list.now) (λ i. slice_get lists.now i ≡ Some list.now) }
{
    for (i, other) in lists.iter().enumerate() {
        if same_numbers(other.as_slice(), list) {
            return Some(i);
        }
    }
    None
}

fn same_numbers(a: &[u32], b: &[u32]) -> bool
    ensures { IsTrue result ↔ (a.now ≡ b.now) }
{
    a == b
}

// the index as a number of the table
fn number_of(index: usize) -> Result<u32, AllocError>
    ensures { IfOk result (λ n. n ≡ index) }
{
    match u32::try_from(index) {
        Ok(number) => Ok(number),
        Err(_) => Err(AllocError),
    }
}
