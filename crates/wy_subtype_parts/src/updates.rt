//! Records with another value at a field.
//!
//! `replaced` puts a part at a field of records, and `updates` gives the type of the records of a type
//! whose value at a field is replaced by values of another.

mod replaced;
mod updates;

pub use updates::with_field_in;
