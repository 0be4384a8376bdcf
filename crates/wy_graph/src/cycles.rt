//! Which arrows of a graph lie on a cycle.
//!
//! `components` labels the nodes: an arrow lies on a cycle exactly where its two ends have one label. The
//! labels are found by two walks in depth (`walks`), each over a list of arrows by node (`graph`); neither
//! recurses. No answer rests on these walks: they leave a certificate, by which a single pass over nodes
//! and arrows tells that the labels are right (`certificate`). Where it doesn't, the labels are counts of
//! the nodes that lead to each node (`ancestors`), slower and right by definition.

mod ancestors;
mod certificate;
mod graph;
mod labels;
mod walks;

pub use graph::{Adjacency, Arrow, adjacency_of};
pub use labels::{Labels, components};
pub use walks::{Forest, walk};
