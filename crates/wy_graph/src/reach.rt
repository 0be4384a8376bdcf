//! Which named types are written out, and from which a type with clauses is reached.
//!
//! `entries` has what a definition and its clauses say of other names. `arrows` goes from each name to those that it mentions, `loops`
//! tells which names lead back to themselves, `order` puts each name behind those that it leads to, and `sizes` has how large each is
//! when the names in it are written out. `writing` puts these together; `clauses` closes a set under clauses.

mod arrows;
mod clauses;
mod entries;
mod loops;
mod order;
mod sizes;
mod writing;

pub use clauses::constrained;
pub use entries::Entry;
pub use writing::written;
