//! Which types of the core are the same by what they say, places aside, as the passes over types
//! ask it.

mod core_types;

pub use core_types::{same_atom, same_conjunct, same_part, same_signed, same_ty};
