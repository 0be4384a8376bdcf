//! Congruence closure: the least congruence of equations between numbered nodes.
//!
//! A node is a name, or the application of one node to another (`nodes`); a symbol with several arguments is applied to
//! one after the other. `labels` has the classes, each as a label of its nodes, and joins two of them. `rounds` looks for
//! two applications of equal nodes to equal nodes that aren't in one class yet, and `closing` joins until there are none.
//! `explaining` finds the equations that a pair of equal nodes needs.

mod closing;
mod explaining;
mod labels;
mod nodes;
mod rounds;

pub use closing::classes;
pub use explaining::explain;
pub use labels::is_same;
pub use nodes::Shape;
pub use wy_items::NoMemory;
