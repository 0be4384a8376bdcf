//! Rounds of the search, written as steps of a certificate: witnesses, instances, facts and products of bounds, in the search's order.
//!
//! `witnesses`, `instances`, `facts` and `products` write to a draft what an item of a round adds to a node, step by step (`plain`,
//! `elements` and `kinds` have the facts by their schemas, `stated` one of them). `expanding` makes the search's item beside it, and
//! `rounds` the whole round. While the search's node grows, the draft's keeps near it: it has at least as much, and no other names.
#![tactic(auto)]

mod elements;
mod expanding;
mod facts;
mod instances;
mod kinds;
mod plain;
mod products;
mod rounds;
mod stated;
mod witnesses;

pub use rounds::write_round;
pub use wy_prove_drafts::{
    Draft, Present, close_by_clash, close_by_shut, close_by_sum, first_draft, literal_number,
    write_chain, write_cut, write_fact, write_instance, write_product, write_split, write_witness,
};
pub use wy_search::{
    Bound, Bounds, Carried, Ending, KnownForms, OpenLeaf, Spot, Verdict, Why, bounds_of, classes,
    classes_clash, copied, copied_branch, ending_of_elimination, facts_of, first_spot, index_terms,
    is_element, measured, no_forms, nothing_carried, products_of, read_count, search, standing,
    terms_present, with_atom, with_instances, with_next_atom, with_witnesses, written_count,
};
