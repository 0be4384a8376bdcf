//! What formulas say of named types.

/// A named type.
#[derive(Clone, Copy)]
pub struct Declared {
    /// The number of its declaration.
    pub decl: usize,
    /// The number of the first expression of its clauses, in the walk of flow typing.
    pub first: usize,
    /// Whether a formula has its definition and its clauses, where it speaks of the name: it doesn't lead back to itself, and with the
    /// names in it written out it has at most 64 nodes.
    pub is_written: bool,
}
