//! What named types say of others.
use wy_items::Items;

/// What stands in the definition and in the clauses of a named type.
#[derive(Drop)]
pub struct Entry {
    /// The named types that they mention, by their numbers, each as often as it is mentioned.
    pub names: Items<u32>,
    /// How many of their nodes are no names.
    pub own: usize,
    /// Whether there are clauses.
    pub has_clauses: bool,
}
