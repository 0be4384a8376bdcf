//! Types as sets of values.
//!
//! `names` has the declared types of a program. `conjuncts` has the normal forms into which a type
//! falls, over terms of any kind, and `table` type terms by number. `sameness` and `node_keys` tell
//! which of them are the same, so that in `numbering` each term has one number, and `tree_numbers`
//! gives the numbers of a type's terms. `question` has two types in one table. `guarded` tells of
//! declared types that none uses a name bare. What a type says of a value, and the conjuncts into
//! which a term falls, are the definitions of this crate, and the crates above it decide by them.
//! `laws` has what holds of the definitions alone.
#![tactic(auto)]

mod conjuncts;
pub mod formed;
mod guarded;
mod laws;
mod names;
mod node_keys;
mod numbering;
mod question;
mod sameness;
mod table;
mod tree_numbers;

pub use conjuncts::{Atom, Conjunct, Part, Signed};
pub use laws::{one_type_a_number, union_is_part};
pub use names::{Declared, Names};
pub use numbering::Numbering;
pub use question::Question;
pub use sameness::{
    has_atom, has_conjunct, has_signed, same_atom, same_conjunct, same_signed, same_terms,
};
pub use table::{Definition, Node, Table};
pub use wy_core;
