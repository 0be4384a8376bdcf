//! Terms and formulas from their texts.
//!
//! `specs/Grammar.antt` says which texts spell which terms. `read` reads a text by a list of what is still to be read
//! (`work`), so a text may nest to any depth: `lead` looks at the front of what is left, `expand` puts what a term is made
//! of on the list, and `root` makes a node once its parts are there.

mod expand;
mod lead;
mod read;
mod root;
mod work;

pub use read::{read_formula, read_int_term, read_term};
