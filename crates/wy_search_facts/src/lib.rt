//! The witnesses and instances that a round of expansion adds to a node.
//!
//! `spot` has a node on a path of the search, with the literals that had a witness and the names that were made for them.
//! `witnesses` adds those of each literal that calls for one and had none. `indices` lists the Int terms that are an index
//! without bound names or the name of a witness, and `instances` adds what each quantifier states of each of them. The
//! definition is that of `wy_search_spec`.
//!
//! The facts that a round of expansion adds to a node.
//!
//! `plain` lists the facts whose one argument stands in the node, and those of lengths; `elements` those of elements of arrays
//! that are written out, and of pairs of elements of one array; `kinds` what terms of a kind are, for which `equations` tells
//! whether a term stands in an equation. `facts` lists all of them by
//! schema. Which facts these are, `wy_search_spec` defines.
//!
//! The facts that validity takes are those of wy_facts: what is proved of the formula that `fact` makes holds of the step.
#![tactic(auto)]

mod elements;
mod equations;
mod facts;
mod indices;
mod instances;
mod kinds;
mod law;
mod made;
mod plain;
mod spot;
mod witnesses;

pub use elements::{is_element, read_count, written_count};
pub use facts::facts_of;
pub use indices::index_terms;
pub use instances::with_instances;
pub use plain::measured;
pub use spot::{Spot, copied_branch};
pub use witnesses::with_witnesses;
