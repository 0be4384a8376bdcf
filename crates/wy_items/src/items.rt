ghost use Rattle.std.specs.Prelude.{◌≡◌, [], ◌∷◌, ◌++◌, ◌<◌, length, slice_get, slice_set, remove, ◌↔◌, IsTrue, IfOk, MatchOption, OnOk, OnErr, OnSome};
ghost use Rattle.std.specs.Option.{option_copied};

use std::alloc::{AllocError, Global};
use std::marker::Model;

/// Items in a row, which a clause sees as their list. Indices count from 0.
#[derive(Debug, Drop)]
pub struct Items<T> {
    row: Vec<T>,
}

impl<T> Model for Items<T> {
    ghost use Rattle.std.specs.Prelude.{List};
    ghost use Rattle.std.specs.Coded.{coded_list};

    ghost Value = { List T };

    ghost coded = { coded_list T.code };

    ghost view = { λ all. all.row.items };
}

impl<T> Items<T> {
    /// No item; takes no memory.
    pub fn new(alloc: Global) -> Items<T>
        ensures { result ≡ [] }
    {
        Items {
            row: Vec::new(alloc),
        }
    }

    /// The items of a `Vec`, taken over without memory, in constant time.
    pub fn from_vec(row: Vec<T>) -> Items<T>
        ensures { result ≡ row.items }
    {
        Items { row }
    }

    /// The items as a `Vec`, given back without memory, in constant time.
    pub fn into_vec(self) -> Vec<T>
        ensures { result.items ≡ self }
    {
        let Items { row } = self;
        row
    }

    /// The items, lent as a slice.
    pub fn as_slice(&self) -> &[T]
        ensures { result.now ≡ self.now }
    {
        self.row.as_slice()
    }

    /// The count of items.
    pub fn len(&self) -> usize
        ensures { result ≡ length self.now }
    {
        self.row.len()
    }

    /// Whether there is no item.
    pub fn is_empty(&self) -> bool
        ensures { IsTrue result ↔ (self.now ≡ []) }
    {
        self.row.is_empty()
    }

    /// The item at an index, lent; `None` from the count on.
    pub fn get(&self, at: usize) -> Option<&T>
        ensures value { option_copied result ≡ slice_get self.now at }
        ensures within { OnSome result (at < length self.now) }
    {
        self.row.get(at)
    }

    /// Takes the last item off; `None` where there is no item.
    pub fn pop(&mut self) -> Option<T>
        ensures { MatchOption result ((self.old ≡ []) × (self.new ≡ [])) (λ last. self.old ≡ self.new ++ last ∷ []) }
    {
        self.row.pop()
    }

    /// Moves all items of `more` behind the last one. `AllocError` where no memory is left.
    pub fn append(&mut self, more: Items<T>) -> Result<(), AllocError>
    where
        T: Drop,
        ensures { OnOk result (self.new ≡ self.old ++ more) }
    {
        let mut row = more.into_vec();
        self.row.append(&mut row)
    }
}

impl<T: Copy> Items<T> {
    /// A copy of the items of a slice. `AllocError` where no memory is left.
    pub fn from_slice(alloc: Global, items: &[T]) -> Result<Items<T>, AllocError>
        ensures { IfOk result (λ made. made ≡ items.now) }
    {
        let row = Vec::from_slice(alloc, items)?;
        Ok(Items { row })
    }
}

impl<T: Drop> Items<T> {
    /// Puts an item behind the last one; what was there stays, also where no memory is left.
    pub fn push(&mut self, item: T) -> Result<(), AllocError>
        ensures ok { OnOk result (self.new ≡ self.old ++ item ∷ []) }
        ensures err { OnErr result (self.new ≡ self.old) }
    {
        self.row.push(item)?;
        Ok(())
    }

    /// Puts an item in the place of the one at an index.
    pub fn set(&mut self, at: usize, item: T)
        requires { at < length self.old }
        ensures { self.new ≡ slice_set self.old at item }
    {
        self.row[at] = item;
    }

    /// Takes the item at an index out; those behind it move up by one.
    pub fn remove(&mut self, at: usize) -> T
        requires { at < length self.old }
        ensures item { slice_get self.old at ≡ Some result }
        ensures rest { self.new ≡ remove self.old at }
    {
        self.row.remove(at)
    }
}

/// The item of a slice at an index, with the answer as one equation.
pub fn at<T>(items: &[T], at: usize) -> Option<&T>
    ensures { option_copied result ≡ slice_get items.now at }
{
    items.get(at)
}
