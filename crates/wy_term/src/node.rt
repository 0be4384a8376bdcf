//! The forms of terms and formulas.
use wy_value::Name;

/// A term or formula whose parts are given by their numbers in a list of terms. An Int term stands for a whole number,
/// a Val term for a datum, and a formula for a truth value. The number in a name is from 0 to 2^127 - 1.
#[derive(PartialEq, Eq, Hash, Drop)]
pub enum Node {
    /// A number, from -2^127 to 2^127 - 1.
    Number(i128),
    /// A name of a number, by its word and its number, `k#n`.
    IntName(Name, u128),
    /// The sum of two Int terms, `add(s, t)`.
    Add(u32, u32),
    /// The difference of two Int terms, `sub(s, t)`.
    Sub(u32, u32),
    /// An Int term's opposite, `neg(s)`.
    Neg(u32),
    /// The product of two Int terms, `mul(s, t)`.
    Mul(u32, u32),
    /// The Euclidean quotient of two Int terms, or 0 where the divisor is 0, `div(s, t)`.
    Div(u32, u32),
    /// The Euclidean remainder of two Int terms, or the dividend where the divisor is 0, `mod(s, t)`.
    Mod(u32, u32),
    /// The number in a datum, or 0 where it is none, `num(v)`.
    Num(u32),
    /// The length of an array, or 0 where the datum is none, `len(v)`.
    Len(u32),
    /// A name of a datum, by its word and its number, `x.n`.
    ValName(Name, u128),
    /// The datum `null`.
    Null,
    /// The datum `true` or `false`.
    Bool(bool),
    /// An Int term as a datum, `int(s)`.
    Int(u32),
    /// A formula as a datum, `bool(F)`.
    Truth(u32),
    /// An array of Val terms, `arr[v, ..]`.
    Array(Vec<u32>),
    /// An array of copies, none where the number is negative, `rep(v, s)`.
    Repeat(u32, u32),
    /// An array with another element at an index, the same where it is out of range, `upd(v, s, w)`.
    Update(u32, u32, u32),
    /// An array's element at an index, or `null` where there is none, `get(v, s)`.
    Get(u32, u32),
    /// A record of Val terms, by rising names, `rec{f: v, ..}`.
    Record(Vec<(Name, u32)>),
    /// A record's field, or `null` where there is none, `fld(v, f)`.
    Field(u32, Name),
    /// A record with another or a new field; of a datum that is none, the record of this field, `setf(v, f, w)`.
    SetField(u32, Name, u32),
    /// The first Int term is at most the second, `s <= t`.
    AtMost(u32, u32),
    /// Two Val terms are equal, `v = w`.
    Equal(u32, u32),
    /// A datum is of this kind, `kind(v, K)`.
    Kind(u32, Kind),
    /// A datum is of the named type with this number, `in(v, N)`.
    In(u32, u32),
    /// A formula holds for each number of a range, `all k#n in s..t | (F)`.
    All(Quantifier),
    /// A formula holds for some number of a range, `some k#n in s..t | (F)`.
    Some(Quantifier),
    /// The denial of a formula, `not F`.
    Not(u32),
    /// Each of these formulas holds, `and(F; ..)`.
    And(Vec<u32>),
    /// One of these formulas holds, `or(F; ..)`.
    Or(Vec<u32>),
}

/// A bound Int name, the Int terms from which and below which it goes, and the formula that is asked of it.
#[derive(PartialEq, Eq, Hash, Drop)]
pub struct Quantifier {
    pub word: Name,
    pub number: u128,
    pub from: u32,
    pub below: u32,
    pub body: u32,
}

/// A kind of data.
#[derive(PartialEq, Eq, Hash, Drop)]
pub enum Kind {
    /// The kind of `null` alone.
    Null,
    /// The kind of `true` and `false`.
    Bool,
    /// The kind of whole numbers.
    Int,
    /// The kind of arrays.
    Array,
    /// The kind of records with exactly these fields, by rising names.
    Record(Vec<Name>),
}
