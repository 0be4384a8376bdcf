//! Linear forms.
use smallvec::SmallVec;
use std::alloc::Global;

/// A sum of products of a number and a variable, and a number. A variable is a term, given by its number, and stands in
/// one part alone; the parts are in the order in which the variables first appear. A variable whose coefficient became 0
/// keeps its place, with 0.
#[derive(Drop)]
pub struct Form {
    pub parts: SmallVec<(i128, u32), 4, Global>,
    pub constant: i128,
}
