//! Exact readers: rules of a grammar, readers of them, and the lemmas that join the two.
//!
//! `specs/Rule.antt` has the combinators that grammars are written in: what a text of a rule spells,
//! and which fault is met in it, and where. `specs/Reader.antt` has the same shapes as functions on
//! lists of symbols, which is what the code does step by step. `proofs/` has a lemma for each shape:
//! where the parts are read exactly, so is the whole. The theorem about a whole text then says that
//! what is read is spelled so, that what is spelled so is read, that a text has one value, that the
//! first impossible symbol is named, and that each fault is named exactly where its rule meets it.
//! Symbols may be of any type (bytes, characters, tokens), and so may the kinds of fault.
//!
//! `stop` is why a reader stops; `example` is a small grammar read whole, from the rules to the call
//! that users see, as a pattern for others.
#![tactic(auto)]

pub mod example;
mod stop;
mod symbols;

pub use stop::Stop;
pub use symbols::{Class, next_is, one, skip, spelled, word};
pub use wy_items::{Boxed, Items, NoMemory};
