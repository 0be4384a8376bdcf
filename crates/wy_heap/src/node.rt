//! Nodes: the arrays and records of a heap.
use crate::part::Part;

/// The kind of a node: an array, or a record with the number of its shape in the heap's table.
#[derive(Clone, Copy, PartialEq, Eq)]
pub enum Shape {
    Array,
    Record(u32),
}

/// A node: the number of its holders, the node that waits to be freed behind it, and its parts.
///
/// On a machine with words of 64 bits it takes 64 bytes of the slab, and 32 bytes for each part in a block
/// of its own (two numbers of 16 bytes: which kind, and a number or a key).
#[derive(Drop)]
pub struct Node {
    pub(crate) count: u64,
    pub(crate) next: Option<usize>,
    pub(crate) shape: Shape,
    pub(crate) parts: Vec<Part>,
}
