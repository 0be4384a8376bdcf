//! Nodes of a certificate's tree as the checker keeps them, and what their literals say of a formula.
//!
//! `branch` has a node: its literals in order, each found by its atom and sign in constant time, and the pending formulas.
//! `adding` adds a formula to a node, and makes the node in which the certificates of a condition begin. `judging` says what
//! the literals say of a formula, in three values (`verdicts` has their connectives). None of these goes into a formula by
//! recursion: each works on a list of what is still to be done (`connectives` has the parts of a formula). What takes no list
//! is in `few`: atoms, and connectives of few atoms; by these `standing` tells of an `or` that it isn't judged no. The
//! definitions are those of `wy_check_spec`; `specs/Seen.antt` says what the code's nodes stand for.
//!
//! The nodes of a certificate's tree that are still to be closed, as the checker keeps them.
//!
//! `trail` has these nodes, of which all but the present one are kept as what was there at a split, and `shut` tells whether
//! a node can't be.
//!
//! Sums of literals' forms: which of them refute, and what a cut states.
//!
//! `summed` adds up multiples of the forms of literals, which are named by their numbers, `refuting` tells whether a form
//! without variables is negative, and `cut` makes the formula that a cut states. The definitions are those of `wy_check_spec`.
#![tactic(auto)]

mod adding;
mod branch;
mod connectives;
mod cut;
mod few;
pub mod fronts;
mod judging;
mod refuting;
mod shut;
mod standing;
mod summed;
mod trail;
mod verdicts;

pub use adding::{add, add_all, first_branch};
pub use branch::{
    Branch, add_literal, add_pending, back_to, bare, has_literal, literal_at, nth_literal,
};
pub use connectives::{is_atom, is_connective};
pub use cut::cut_stated;
pub use judging::{is_refuted, judge, nothing_known, pending_at};
pub use refuting::is_refuting;
pub use shut::is_shut;
pub use summed::{form_at, form_of_sum};
pub use trail::{Trail, close, grow, one_node, split};
pub use verdicts::fails;
pub use wy_check_spec::{
    Kind, NoMemory, Node, Quantifier, Taken, Terms, made_of, new_number, none_taken, parts_of,
    subst, take_numbers, with_parts,
};
