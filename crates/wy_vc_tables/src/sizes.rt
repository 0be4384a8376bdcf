//! How many expressions there are, and which named types a type mentions.
//!
//! `counts` has how many expressions there are, by which each has a number in the walk of flow typing. `mentions` tells
//! whether a type mentions a name that is marked.

mod counts;
mod mentions;

pub use counts::{exprs_in, exprs_in_all, exprs_in_block, exprs_in_list, exprs_in_stmt, total};
pub use mentions::mentions_marked;
