//! What is still to be read.
use wy_term::Name;

/// Whether an Int term, a Val term or a formula is to be read.
#[derive(Clone, Copy)]
pub(crate) enum Sort {
    Int,
    Val,
    Formula,
}

/// A list of parts of one sort: the elements of an array, or the members of an `and` or an `or`.
#[derive(Clone, Copy)]
pub(crate) enum Series {
    Elements,
    Members,
}

/// Something that is still to be read or made. A number is how many terms were done before the first part of the node
/// that it belongs to.
#[derive(Drop)]
pub(crate) enum Task {
    /// These bytes.
    Word(&'static str),
    /// A term of this sort.
    Term(Sort),
    /// A node is made of the parts.
    Root(Root, usize),
    /// The first part of a series, or its end.
    First(Series, Root, usize),
    /// Another part of a series, or its end.
    More(Series, Root, usize),
    /// The first field of a record, or its end.
    FirstField(usize),
    /// Another field of a record, or its end, behind fields of these names.
    MoreFields(Vec<Name>, usize),
    /// The name of `fld`.
    FieldName(usize),
    /// The name and the new value of `setf`.
    SetFieldName(usize),
    /// The kind of `kind`.
    KindName(usize),
    /// Another name of a kind's field list, or its end.
    KindFields(Vec<Name>, usize),
    /// The number of `in`.
    TypeNumber(usize),
    /// The name, the bounds and the body of `all`, or of `some`.
    Binder(bool, usize),
}

/// What stands at the root of a term beside its parts.
#[derive(Drop)]
pub(crate) enum Root {
    Number(i128),
    IntName(Name, u128),
    Add,
    Sub,
    Neg,
    Mul,
    Div,
    Mod,
    Num,
    Len,
    ValName(Name, u128),
    Null,
    Bool(bool),
    Int,
    Truth,
    Array,
    Repeat,
    Update,
    Get,
    Record(Vec<Name>),
    Field(Name),
    SetField(Name),
    AtMost,
    Equal,
    Kind(wy_term::Kind),
    In(u32),
    All(Name, u128),
    Some(Name, u128),
    Not,
    And,
    Or,
}
