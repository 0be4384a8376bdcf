//! A shape of records, as a key.
ghost use Rattle.std.specs.Prelude.{◌≡◌, bytes_eq};
ghost use Rattle.std.proofs.Common.{rules};
ghost use Rattle.std.specs.Hash as fed;
ghost use Rattle.std.specs.Cmp.{on_equiv, on_per, partial_equiv_from_equiv};
ghost use Rattle.std.specs.Cmp.Lexicographic.{nat_list_eq_equiv};
ghost use Rattle.std.specs.Cmp.Rules.{hashing};

use std::hash::{Hash, Hasher};
use std::marker::Model;
use wy_items::Items;

/// The numbers of a record's fields. A contract sees the list of them.
#[derive(Drop)]
pub struct Shape {
    numbers: Items<u32>,
}

impl Model for Shape {
    ghost use Rattle.std.specs.Prelude.{List, ℕ};

    ghost Value = { List ℕ };

    ghost view = { λ s. s.numbers };
}

impl Shape {
    /// The shape with these numbers. It takes no memory.
    pub fn new(numbers: Items<u32>) -> Shape
        ensures value { result ≡ numbers }
    {
        Shape { numbers }
    }

    /// The numbers, given back. It takes no memory.
    pub fn into_numbers(self) -> Items<u32>
        ensures value { result ≡ self }
    {
        let Shape { numbers } = self;
        numbers
    }

    /// The numbers, lent.
    pub fn as_slice(&self) -> &[u32]
        ensures value { result.now ≡ self.now }
    {
        self.numbers.as_slice()
    }
}

impl PartialEq for Shape {
    ghost eq = { λ a b. bytes_eq a b };

    ghost laws = { on_per (λ s. s) (partial_equiv_from_equiv nat_list_eq_equiv) };

    fn eq(&self, other: &Shape) -> bool {
        self.as_slice() == other.as_slice()
    }
}

impl Eq for Shape {
    ghost laws = { on_equiv (λ s. s) nat_list_eq_equiv };
}

impl Hash for Shape {
    ghost hash_input = { λ s. fed.slice fed.u32 s };

    ghost respects_eq = { Prim.search (hashing, rules) };

    fn hash<H: Hasher>(&self, state: &mut H) {
        self.as_slice().hash(state);
    }
}
