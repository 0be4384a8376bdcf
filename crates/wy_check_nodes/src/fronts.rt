//! The node of a condition's hypotheses, kept for the conditions that come next.
//!
//! The conditions of one body begin with the same hypotheses, so their first nodes begin alike too. `front` keeps the node that the
//! hypotheses of one condition make, and how it grew; for the next condition it takes away what that one doesn't have, and adds what it
//! has besides. What a node is made of by its hypotheses, `wy_check_spec` defines.

mod front;

pub use front::{Front, Size, no_front, to_first_node, to_hypotheses};
