//! Clauses.
use wy_items::Items;

/// The head is in the set where of each list of the body some number is.
#[derive(Drop)]
pub struct Clause {
    pub head: u32,
    pub body: Items<Items<u32>>,
}
