//! Whether terms are of the sorts that their places want.
//!
//! `sorts` has the sort of a term, `parts` whether parts are of given sorts, `places` what each form of term wants of its parts, and
//! `marks` which terms of a list are sorted throughout.

mod marks;
mod parts;
mod places;
mod sorts;

pub use marks::sorted_terms;
pub use sorts::{Sort, is_of_sort};
