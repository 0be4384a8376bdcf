//! Types of the core, and their normal forms.
use wy_value::{Boxed, Items, Name};

/// A type, with the byte offset where it stands in the source. What a pass makes has the place of
/// the node for which it was made.
#[cycle(core_ty)]
#[derive(Drop)]
pub struct Ty {
    pub at: u32,
    pub kind: TyKind,
}

/// What a type is.
#[cycle(core_ty)]
#[derive(Drop)]
pub enum TyKind {
    /// `null`, at the word.
    Null,
    /// `bool`, at the word.
    Bool,
    /// `int`, at the word.
    Int,
    /// `any`, at the word.
    Any,
    /// `void`, at the word.
    Void,
    /// `{int x, bool y}`, at `{`: each field's name with its type, by rising names.
    Record(Items<(Name, Ty)>),
    /// `int[]`, at `[`: the type of the items.
    Array(Boxed<Ty>),
    /// `int | null`, at `|`.
    Union(Boxed<Ty>, Boxed<Ty>),
    /// `any & int`, at `&`.
    Inter(Boxed<Ty>, Boxed<Ty>),
    /// `!int`, at `!`.
    Not(Boxed<Ty>),
    /// `nat`, at the name: the number of a declared type.
    Named(u32),
    /// A normal type, which no source spells: the union of its conjuncts.
    Normal(Items<Conjunct>),
}

/// The values of the positive atom that are in none of the negative ones.
#[cycle(core_ty)]
#[derive(Drop)]
pub struct Conjunct {
    pub positive: Atom,
    pub negatives: Items<Atom>,
}

/// A kind of values, and what their parts must be.
#[cycle(core_ty)]
#[derive(Drop)]
pub enum Atom {
    Null,
    Bool,
    Int,
    /// The arrays whose items are in the part.
    Array(Part),
    /// The records with these fields, whose values are in the parts. The names rise.
    Record(Items<(Name, Part)>),
    /// All records.
    AnyRecord,
}

/// What is in all of the terms. No terms: every value.
#[cycle(core_ty)]
#[derive(Drop)]
pub struct Part {
    pub terms: Items<Signed>,
}

/// What is in a type, or is not in it.
#[cycle(core_ty)]
#[derive(Drop)]
pub struct Signed {
    pub term: Ty,
    /// Whether a constrained name in it stands for its definition, else for no value.
    pub up: bool,
    /// Whether the values are those in the type, else those outside of it.
    pub inside: bool,
}
