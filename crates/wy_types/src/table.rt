//! Terms of types by number: a table in which equal terms have one number.
use crate::conjuncts::Conjunct;
use crate::numbering::Numbering;
use wy_core::Name;
use wy_items::Items;

/// What a term is, its parts as numbers of terms.
#[derive(Drop)]
pub enum Node {
    Null,
    Bool,
    Int,
    Any,
    Void,
    /// The fields by rising names.
    Record(Items<(Name, u32)>),
    Array(u32),
    Union(u32, u32),
    Inter(u32, u32),
    Not(u32),
    /// The number of a declared type.
    Named(u32),
    Normal(Items<Conjunct<u32>>),
}

/// What a declared type stands for.
#[derive(Clone, Copy, Debug)]
pub struct Definition {
    pub term: u32,
    /// Whether it has a clause, so that nothing is surely in it.
    pub constrained: bool,
}

/// Terms by number, and what the declared types stand for.
#[derive(Drop)]
pub struct Table {
    pub nodes: Numbering,
    pub definitions: Items<Definition>,
}
