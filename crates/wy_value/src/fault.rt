//! Why a text of arguments is refused.

/// Why a text is no argument text. Each fault has the byte offset where it stands; of several that
/// stand in a text the first one counts.
#[derive(Clone, Copy, Debug, PartialEq, Eq)]
pub enum ValueFault {
    /// The first byte after which no argument text goes on, as the `x` in `(nulx)`; the end of the text
    /// counts as a byte. Or the name of a field that is given twice, as the second `a` in `({a: 1, a: 2})`.
    Shape(u64),
    /// A number that is no `int`, at its first byte.
    Range(u64),
    /// A bracket that stands inside 100 others, the outer round pair not counted.
    Deep(u64),
    NoMemory,
}

/// What the rules of the grammar refuse.
#[derive(Clone, Copy, Debug, PartialEq, Eq)]
pub enum Kind {
    Range,
    Deep,
    /// A field that is given twice.
    Twice,
}
