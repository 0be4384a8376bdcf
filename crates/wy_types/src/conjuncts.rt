//! Conjuncts over terms of any kind: a term is a type, or the number of one in a table.
use wy_core::Name;
use wy_items::Items;

/// The values of the positive atom that are in none of the negative ones.
#[derive(Drop)]
pub struct Conjunct<T> {
    pub positive: Atom<T>,
    pub negatives: Items<Atom<T>>,
}

/// A kind of values, and what their parts must be.
#[derive(Drop)]
pub enum Atom<T> {
    Null,
    Bool,
    Int,
    /// The arrays whose items are in the part.
    Array(Part<T>),
    /// The records with these fields, whose values are in the parts. The names rise.
    Record(Items<(Name, Part<T>)>),
    /// All records.
    AnyRecord,
}

/// What is in all of the terms. No terms: every value.
#[derive(Drop)]
pub struct Part<T> {
    pub terms: Items<Signed<T>>,
}

/// What is in a type, or is not in it.
#[derive(Drop)]
pub struct Signed<T> {
    pub term: T,
    /// Whether a constrained name in it stands for its definition, else for no value.
    pub up: bool,
    /// Whether the values are those in the type, else those outside of it.
    pub inside: bool,
}
