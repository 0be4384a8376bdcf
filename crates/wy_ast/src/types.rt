//! Types as they are written.
use wy_data::Name;
use wy_items::{Boxed, Items};

/// A type, with the byte offset where it stands.
#[cycle(ty)]
#[derive(Drop)]
pub struct Ty {
    pub at: u32,
    pub kind: TyKind,
}

/// What a type is. Brackets have no node.
#[cycle(ty)]
#[derive(Drop)]
pub enum TyKind {
    /// `null`, at the word.
    Null,
    /// `bool`, at the word.
    Bool,
    /// `int`, at the word.
    Int,
    /// `any`, at the word.
    Any,
    /// `void`, at the word.
    Void,
    /// `{int x, bool y}`, at `{`: each field's name with its type, as they stand.
    Record(Items<(Name, Ty)>),
    /// `int[]`, at `[`: the type of the items.
    Array(Boxed<Ty>),
    /// `int | null`, at `|`.
    Union(Boxed<Ty>, Boxed<Ty>),
    /// `any & int`, at `&`.
    Inter(Boxed<Ty>, Boxed<Ty>),
    /// `!int`, at `!`.
    Not(Boxed<Ty>),
    /// `nat`, at the name of a declared type.
    Named(Name),
}
