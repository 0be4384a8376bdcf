//! The search for a proof of a condition.
//!
//! `carried` has what one search leaves to the next. `expanding` makes one round of expansion. `turning` judges a node anew and
//! says what becomes of it: it is closed, it is an open leaf, it splits, or it goes on expanded. `walk` goes through the tree, up to
//! a budget of leaves. Which verdict that is, `wy_search_spec` defines.
//!
//! Of the crates of one step of the search it passes on what certificates of such a search are made with too.
#![tactic(auto)]

mod carried;
mod expanding;
mod turning;
mod verdict;
mod walk;

pub use carried::{Carried, nothing_carried};
pub use expanding::expanded;
pub use turning::{Next, copied, what_follows, with_atom, with_next_atom};
pub use verdict::{OpenLeaf, Verdict, Why};
pub use walk::{first_spot, search};
pub use wy_search_bounds::{
    Bound, Bounds, Ending, KnownForms, bounds_of, classes, classes_clash, ending_of_elimination,
    no_forms, products_of, standing, terms_present,
};
pub use wy_search_facts::{
    Spot, copied_branch, facts_of, index_terms, is_element, measured, read_count, with_instances,
    with_witnesses, written_count,
};
