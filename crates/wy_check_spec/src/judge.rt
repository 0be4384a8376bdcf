//! The nodes of a certificate's tree: literals, pending formulas, and what the literals say of a formula.
//!
//! `verdict` has the three answers. The definitions of a node, of adding a formula to it and of judging a formula are in
//! specs/; `law` says that judging is right and that a true node stays true.

mod law;
mod verdict;

pub use law::{adds_truly, begins_truly, judges_truly};
pub use verdict::Verdict;
