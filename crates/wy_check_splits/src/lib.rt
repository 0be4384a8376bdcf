//! What quantifiers among a node's literals state: of a given number, and of a new name.
//!
//! `quantifier` reads a quantifier; `instance` makes what a true `all` or a false `some` states of an Int term, and `witness`
//! what a true `some` or a false `all` states of a new name, whose number is none of those of the node's names (`numbers`).
//! The definitions are those of `wy_check_spec`.
//!
//! Which terms a node's literals join, and what a chain of terms states.
//!
//! `joined` looks the literals through once and notes the pairs of terms that they join, so that each pair is found in
//! constant time. `alike` tells whether two terms have one head and arguments that are pairwise the same or joined, and
//! `chain` makes what a chain of terms states of its ends. The definitions are those of `wy_check_spec`.
//!
//! Which literals of a node can't be, by constants and by kinds.
//!
//! `constants` has the data of constants, and `kinds` the kinds of constants and of data that are written out. `alone` tells
//! whether a literal alone can't be. `given` has the terms to which a literal gives or denies a kind, in groups of one kind,
//! and `meeting` tells whether two groups have a term in common. `clash` puts these together. The definitions are those of
//! `wy_check_spec`.
//!
//! Whether a name stands free in a term.
//!
//! `todo` keeps which terms are still to be looked at, each once: the greatest number comes first, and a term's parts have
//! smaller ones. `free` goes through them.
#![tactic(auto)]

mod alike;
mod alone;
mod chain;
mod clash;
mod constants;
mod free;
mod given;
mod instance;
mod joined;
mod kinds;
mod making;
mod meeting;
mod numbers;
mod quantifier;
mod sorts;
mod todo;
mod witness;

pub use chain::chain_stated;
pub use clash::is_clash;
pub use constants::{are_apart, constant_at};
pub use free::is_free;
pub use instance::{instance_at, instance_stated, name};
pub use kinds::{copied_kind, kind_given, same_kind};
pub use numbers::fresh_number;
pub use quantifier::{Range, of_each, of_one};
pub use todo::{put_all, put_members};
pub use witness::{witness_stated, witnessed_at};
pub use wy_check_nodes::{
    Branch, Trail, add_literal, add_pending, back_to, bare, close, cut_stated, fails, first_branch,
    form_at, grow, has_literal, is_atom, is_connective, is_refuting, is_shut, judge, nothing_known,
    nth_literal, one_node, pending_at, split,
};
