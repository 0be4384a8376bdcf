//! Small sets in the order in which their items came.
//!
//! Few items are looked through, which costs less than a table of them; where more have come, a table finds them. `numbers` has the
//! place of each number of a row, and `signed` numbers that hold or are denied, each once.

mod numbers;
mod signed;

pub use numbers::{place_among, push_number};
pub use signed::{SignedSet, is_listed, list, no_signed};
