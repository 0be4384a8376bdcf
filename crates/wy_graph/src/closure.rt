//! The least set of numbers that is closed under clauses.
//!
//! A clause puts a number into the set where the set has some number of each of its lists. `clauses`
//! has them, `marks` the sets, each as a mark for each number, and `index` the clauses that mention
//! each number. `closing` marks by a work list: a clause is read once at first, and once more for
//! each time that a number which it mentions was marked, from its first list on that wasn't met. So
//! all of it takes the time of what the clauses mention, but for the numbers of one list.

mod clauses;
mod closing;
mod index;
mod marks;

pub use clauses::Clause;
pub use closing::close;
pub use marks::{any_marked, each_marked, mark_at};
