//! Schemas, and what they are stated of.

/// A schema of facts.
#[derive(Clone, Copy, Debug, PartialEq, Eq)]
pub enum Schema {
    /// A length is at least 0.
    LengthIsNatural,
    /// The length of so many copies.
    LengthOfCopies,
    /// The length of an array with another element.
    LengthOfUpdated,
    /// An element of a written out array.
    ElementOfArray,
    /// An element of an array of copies.
    ElementOfCopies,
    /// The other element of an array with another element.
    ElementUpdated,
    /// The elements beside it.
    ElementElsewhere,
    /// Elements of one array at one index are equal.
    ElementsAtOneIndex,
    /// The field of a record that was set.
    FieldUpdated,
    /// The fields beside it.
    FieldElsewhere,
    /// Equal data have equal numbers.
    EqualNumbers,
    /// The kind of an array with another element.
    KindOfUpdated,
    /// The kind of a record with a field that was set.
    KindOfFieldUpdated,
    /// Which data there are of a kind.
    DatumByKind,
    /// The datum of a formula.
    DatumOfFormula,
    /// Quotient and remainder.
    Division,
}

/// A schema and the parts of its arguments, by their numbers.
#[derive(Drop)]
pub struct Instance {
    pub schema: Schema,
    pub parts: Vec<u32>,
}
