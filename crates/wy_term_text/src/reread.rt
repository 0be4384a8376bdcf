//! Terms and formulas are read back from how they are written.
//!
//! `specs/Shown.antt` says of which sort a term is, from its root to its leaves.
//!
//! Folded terms.
//!
//! `specs/Folded.antt` says which terms are folded throughout: those that a list of terms has, since a term is folded as it
//! is made.
//!
//! What is written of a folded term is read as that very term.

mod folded_law;
mod law;
mod reread_law;

pub use folded_law::made_terms_are_folded;
pub use law::shown_terms_are_spelled;
pub use reread_law::{folded_terms_are_made_anew, shown_terms_are_read};
