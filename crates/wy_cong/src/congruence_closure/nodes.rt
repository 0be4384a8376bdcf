//! Nodes.
/// What a node is.
#[derive(Clone, Copy, Debug, PartialEq, Eq)]
pub enum Shape {
    /// A name, which is equal to itself alone unless an equation says more.
    Name,
    /// The node with the first number, applied to the one with the second.
    Apply(u32, u32),
}
