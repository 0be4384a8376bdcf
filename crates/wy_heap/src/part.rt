//! Places: the words that callers hold.
ghost use Rattle.std.specs.Prelude.{◌≡◌};
ghost use Rattle.wy_heap.specs.Parts.{IsScalar, scalar_part};

use std::marker::Model;

/// One word: null, a truth value, a number, or a hold on the node with this key.
#[derive(Clone, Copy, PartialEq, Eq)]
pub enum Part {
    Null,
    Bool(bool),
    Int(i128),
    Key(usize),
}

/// What a place holds.
#[derive(Clone, Copy, Debug, PartialEq, Eq)]
pub enum Kind {
    Null,
    Bool(bool),
    /// A number, from `INT_MIN` to `INT_MAX`.
    Int(i128),
    Array,
    /// A record, with the number of its shape in the heap's table.
    Record(u32),
}

/// A slot of an array or of a record.
#[derive(Clone, Copy, Debug, PartialEq, Eq)]
pub enum Slot {
    /// The item of an array with this index, from 0.
    Item(u64),
    /// The field of a record whose name has this number in the heap's table.
    Field(u32),
}

/// A word that a caller of a heap holds: null, a truth value, a number, or a counted hold on one of
/// the heap's nodes. It can't be dropped: `release` or another call of the heap takes it back.
/// Clauses see it as its part.
pub struct Place {
    part: Part,
}

impl Model for Place {
    ghost use Rattle.wy_heap.specs.declared.part.Part.{Part};

    ghost Value = { Part };

    ghost view = { λ p. p.part };
}

impl Place {
    /// A place of null, a truth value or a number. It takes no memory.
    pub fn scalar(k: Kind) -> Place
        requires { IsScalar k }
        ensures value { result ≡ scalar_part k }
    {
        match k {
            Kind::Null => Place { part: Part::Null },
            Kind::Bool(b) => Place {
                part: Part::Bool(b),
            },
            Kind::Int(n) => Place { part: Part::Int(n) },
            Kind::Array | Kind::Record(_) => unreachable!(),
        }
    }

    // the place of this part
    pub(crate) fn of(part: Part) -> Place
        ensures { result ≡ part }
    {
        Place { part }
    }

    // the part of this place
    pub(crate) fn part(&self) -> Part
        ensures { result ≡ self.now }
    {
        self.part
    }

    // the part of this place, which is spent
    pub(crate) fn spent(self) -> Part
        ensures { result ≡ self }
    {
        let Place { part } = self;
        part
    }
}

// the places are spent
pub(crate) fn spend(mut items: Vec<Place>) {
    while let Some(item) = items.pop() {
        let _part = item.spent();
    }
    items.destroy_empty();
}
