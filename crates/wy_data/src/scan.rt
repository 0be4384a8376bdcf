//! Words and numbers at the front of a text.
//!
//! `front` has the bytes of a class that stand first and the text behind given bytes, `numbers` decimal numbers in their one
//! spelling, and `names` names of the language, alone, with a number or as the names of fields. Each call takes as much of
//! the text as it can, and says exactly whether there is such a thing.

mod front;
mod law;
mod names;
mod numbers;

pub use front::{behind, digits, is_digit, is_word_byte, run};
pub use law::names_are_words;
pub use names::{are_fields, numbered, word};
pub use numbers::{natural, whole};
