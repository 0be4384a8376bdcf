//! What a node asks about types: its checks and its type, at its place.
//!
//! `terms` makes the types that are asked about. `checks` has the checks, each with the fault of the
//! node where it fails, and `made` the types that a node makes. `joins` unites the types of variables
//! where two paths meet.

mod checks;
mod joins;
mod made;
mod terms;

pub use checks::{asked_at, is_array, is_bool, is_int, is_within};
pub use joins::{joined, joined_type};
pub use made::{element_at, field_at, norm_at, with_field_at};
pub use terms::{array_of, inter_of, not_of, plain, record_of, union_of};
