//! The names of fields and the shapes of records, each once, by their numbers.
ghost use Rattle.std.specs.Prelude.{◌≡◌, [], IfOk, OnOk, map};
ghost use Rattle.wy_code_spec.specs.tables.Tables as spec;

use crate::tables::shape::Shape;
use indexmap::IndexSet;
use std::alloc::Global;
use std::marker::Model;
use wy_code::pieces::NoMemory;
use wy_data::Name;
use wy_items::Items;
use wy_value::Shapes;

/// The names of fields and the shapes of records, by their numbers and each found by hashing it. A
/// contract sees the lists of them.
#[derive(Drop)]
pub struct Table {
    names: IndexSet<Name>,
    lists: IndexSet<Shape>,
}

impl Model for Table {
    ghost use Rattle.wy_value.specs.declared.shapes.Shapes.{Shapes};

    ghost Value = { Shapes };

    ghost view = { λ t. record { names = t.names.keys; lists = t.lists.keys } };
}

impl Table {
    /// No names and no shapes. It takes no memory.
    pub fn new(alloc: Global) -> Table
        ensures value { result ≡ record { names = []; lists = [] } }
    {
        Table {
            names: IndexSet::new(alloc),
            lists: IndexSet::new(alloc),
        }
    }

    /// The lists, in time linear in their lengths.
    pub fn into_shapes(self, alloc: Global) -> Result<Shapes, NoMemory>
        ensures value { IfOk result (λ s. s ≡ self) }
    {
        let Table { names, lists } = self;
        Ok(Shapes {
            names: names_of(alloc, names)?,
            lists: lists_of(alloc, lists)?,
        })
    }
}

fn names_of(alloc: Global, names: IndexSet<Name>) -> Result<Items<Name>, NoMemory>
    ensures value { IfOk result (λ l. l ≡ names.keys) }
{
    let mut list = Items::new(alloc);
    for name in names {
        list.push(name)?;
    }
    Ok(list)
}

fn lists_of(alloc: Global, lists: IndexSet<Shape>) -> Result<Items<Items<u32>>, NoMemory>
    ensures value { IfOk result (λ l. l ≡ lists.keys) }
{
    let mut list = Items::new(alloc);
    for shape in lists {
        list.push(shape.into_numbers())?;
    }
    Ok(list)
}

/// A name is in the table.
pub(crate) fn with_name(alloc: Global, name: &Name, table: Table) -> Result<Table, NoMemory>
    ensures value { IfOk result (λ t. t ≡ spec.with_name name.now table) }
{
    let Table { mut names, lists } = table;
    put_name(alloc, name, &mut names)?;
    Ok(Table { names, lists })
}

#[tactic(auto, using(crate::proofs::tables_lemmas::KeyLemmas::any_stands))]
fn put_name(alloc: Global, name: &Name, names: &mut IndexSet<Name>) -> Result<(), NoMemory>
    ensures value { OnOk result (names.new.keys ≡ spec.with_one names.old.keys name.now) }
{
    if !names.contains(name) {
        let Ok(_) = names.insert_full(name.copy(alloc)?) else {
            return Err(NoMemory);
        };
    }
    Ok(())
}

/// The number of a name, and the number of names where it isn't there, in constant time beside that of
/// hashing it.
pub fn name_number(name: &Name, table: &Table) -> Result<u32, NoMemory>
    ensures value { IfOk result (λ n. n ≡ spec.number_of name.now table.now.names) }
{
    number(place_of_name(name, &table.names))
}

fn place_of_name(name: &Name, names: &IndexSet<Name>) -> usize
    ensures value { result ≡ spec.number_of name.now names.now.keys }
{
    match names.get_index_of(name) {
        Some(place) => place,
        None => names.len(),
    }
}

/// A shape is in the table.
pub(crate) fn with_shape(list: Items<u32>, table: Table) -> Result<Table, NoMemory>
    ensures value { IfOk result (λ t. t ≡ record { names = table.names; lists = spec.with_one table.lists list }) }
{
    let Table { names, mut lists } = table;
    put_shape(list, &mut lists)?;
    Ok(Table { names, lists })
}

#[tactic(auto, using(crate::proofs::tables_lemmas::KeyLemmas::key_one))]
fn put_shape(list: Items<u32>, lists: &mut IndexSet<Shape>) -> Result<(), NoMemory>
    ensures value { OnOk result (lists.new.keys ≡ spec.with_one lists.old.keys list) }
{
    let Ok(_) = lists.insert_full(Shape::new(list)) else {
        return Err(NoMemory);
    };
    Ok(())
}

/// The number of a list of numbers of fields, and the number of shapes where it isn't there.
pub(crate) fn list_number(list: Items<u32>, table: &Table) -> Result<u32, NoMemory>
    ensures value { IfOk result (λ n. n ≡ spec.number_of list table.now.lists) }
{
    number(place_of_shape(&Shape::new(list), &table.lists))
}

fn place_of_shape(shape: &Shape, lists: &IndexSet<Shape>) -> usize
    ensures value { result ≡ spec.number_of shape.now lists.now.keys }
{
    match lists.get_index_of(shape) {
        Some(place) => place,
        None => lists.len(),
    }
}

/// A place as a number.
fn number(place: usize) -> Result<u32, NoMemory>
    ensures value { IfOk result (λ n. n ≡ place) }
{
    let Ok(number) = u32::try_from(place) else {
        return Err(NoMemory);
    };
    Ok(number)
}
