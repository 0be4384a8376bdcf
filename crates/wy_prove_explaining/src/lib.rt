//! What shows that a node is closed, as steps whose literals are named by their atoms.
//!
//! `action` has these steps. `merging` joins the classes of a node's congruence again and notes which two terms joined which
//! classes, `paths` finds the way between two terms of one class, and `explaining` lists the chains by which literals join
//! them. `clashing` finds what clashes in classes that do. `sources` has the forms that elimination is given, `needed` marks
//! those that its last step needs, `used` has their literals with the bounds that replace variables, and `refuting` lists the
//! steps over these. No clause says that what is listed is a proof: it is the checker of certificates that judges it.
#![tactic(auto)]

mod action;
mod clashing;
mod explaining;
mod merging;
mod needed;
mod paths;
mod refuting;
mod sources;
mod used;

pub use action::{Action, Named};
pub use clashing::why_they_clash;
pub use refuting::why_it_refutes;
pub use wy_check_nodes::{Branch, add, form_of_sum, is_shut};
