//! What a cache holds.

/// A condition, and steps that were found for it. Whether they show it isn't said.
#[derive(Drop)]
pub struct Entry {
    /// The lines of the hypotheses, in order, and of the goal, each with its end.
    pub key: Vec<u8>,
    /// The lines of the steps, each with its end.
    pub steps: Vec<u8>,
}

/// The entries of a cache, in order.
#[derive(Drop)]
pub struct Cache {
    pub entries: Vec<Entry>,
}
