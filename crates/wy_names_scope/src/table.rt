//! The names in scope.
ghost use Rattle.std.specs.Prelude.{◌≡◌, [], length, take, is_some, OnOk};
ghost use Rattle.wy_names_scope.specs.Scope as names;

use indexmap::IndexMap;
use std::alloc::{AllocError, Global};
use std::marker::Model;
use wy_data::Name;

/// What a call of a function or method has to know of it.
#[derive(Clone, Copy, Debug, PartialEq, Eq)]
pub struct Signature {
    /// Its number among the functions and methods.
    pub number: u32,
    /// How many parameters it has.
    pub arity: usize,
    pub is_method: bool,
    /// Whether it gives something back.
    pub has_result: bool,
}

/// What a name stands for.
#[derive(Clone, Copy, Debug, PartialEq, Eq)]
pub enum Entry {
    /// A declared type: its number, and the index of its declaration.
    Type(u32, u32),
    /// A function or method, a built-in one too.
    Routine(Signature),
    /// A property: the index of its declaration, and how many parameters it has.
    Property(u32, usize),
    /// A variable, by its number.
    Variable(u32),
}

/// Names with what they stand for, each name once, in the order in which they came. A contract sees
/// the list of them.
#[derive(Drop)]
pub struct Table {
    entries: IndexMap<Name, Entry>,
}

impl Model for Table {
    ghost use Rattle.std.specs.Prelude.{List, ℕ};
    ghost use Rattle.wy_names_scope.specs.declared.table.Entry.{Entry};

    ghost Value = { List (List ℕ × Entry) };

    ghost view = { λ t. t.entries.entries };
}

impl Table {
    /// No names. It takes no memory.
    pub fn new(alloc: Global) -> Table
        ensures value { result ≡ [] }
    {
        Table {
            entries: IndexMap::new(alloc),
        }
    }

    /// What the name stands for, in constant time beside that of hashing it.
    pub fn get(&self, name: &Name) -> Option<Entry>
        ensures value { result ≡ names.entry_of self.now name.now }
    {
        self.entries.get(name).copied()
    }

    /// Whether the name stands for something, in constant time beside that of hashing it.
    pub fn has(&self, name: &Name) -> bool
        ensures value { result ≡ names.has self.now name.now }
    {
        self.entries.contains_key(name)
    }

    /// How many names there are.
    pub fn len(&self) -> usize
        ensures value { result ≡ length self.now }
    {
        self.entries.len()
    }

    /// Whether there are none.
    pub fn is_empty(&self) -> bool {
        self.entries.is_empty()
    }

    /// Puts a name last. One that is there stays as it is.
    pub fn put(&mut self, alloc: Global, name: &Name, entry: Entry) -> Result<(), AllocError>
        ensures value { OnOk result (self.new ≡ names.with_name self.old name.now entry) }
    {
        if self.has(name) {
            return Ok(());
        }
        let name = name.copy(alloc)?;
        self.entries.insert(name, entry)?;
        Ok(())
    }

    /// Keeps the first names, as many as there were when a block began.
    pub fn cut(&mut self, len: usize)
        ensures value { self.new ≡ take len self.old }
    {
        self.entries.truncate(len);
    }
}
