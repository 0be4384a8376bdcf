//! Text and bytes as plain data.
//!
//! A clause sees a `String` or a `Vec` with its allocator and its capacity, so two that spell the
//! same are not equal there. `name` has the names of variables, fields and declarations, and `bytes`
//! the texts of literals: a clause sees both as the list of their bytes, and in a tree of them, of
//! lists (`wy_items::Items`) and of boxes (`wy_items::Boxed`), `≡` says what it means.
#![tactic(auto)]

mod bytes;
mod name;
pub mod scan;
mod words;

pub use bytes::Bytes;
pub use name::{Name, same_bytes};
pub use words::{is_keyword, is_part, is_start};
