//! Certificates as far as they are written.
//!
//! `draft` has a draft: the steps so far, with the terms that they name, and the node at which the next step stands. `numbers` gives
//! each literal the number that it has there. `closing` writes steps that close the node, `stating` those that add to it; each
//! is tested by the checker's own rule for its kind, and what isn't valid isn't written. Both put their steps by `putting`, which copies
//! a step's terms to the draft's own (`copying`) and, for a step that adds formulas, writes it only where they add something to the
//! node (`growing`).
#![tactic(auto)]

mod closing;
mod copying;
mod draft;
mod growing;
mod numbers;
mod putting;
mod stating;

pub use closing::{close_by_clash, close_by_shut, close_by_sum, write_split};
pub use draft::{Draft, first_draft};
pub use numbers::literal_number;
pub use stating::{
    write_chain, write_cut, write_fact, write_instance, write_product, write_witness,
};
pub use wy_check_nodes::{
    Branch, add_all, add_literal, cut_stated, form_at, form_of_sum, has_literal, literal_at,
    nth_literal, pending_at,
};
pub use wy_check_splits::{of_each, of_one};
pub use wy_search_laws::{
    Present, Replaced, Taking, classes, in_one_class, numbered, replace, takings, terms_present,
};
