//! Nodes closed by their classes: chains that join the terms of each class, and then `shut` or `clash` where they clash.
//!
//! `labelled` has the terms present in a node and their classes. `chains` writes one chain, if it adds anything; `thirds` and `seconds` go
//! through the chains of three terms and of two of one class, and `rounds` does so until none adds anything. `clashing` looks for a literal or two
//! that can't be. `linking` puts these together: it searches for no chain, since those of two terms and of three, round after round, lead
//! wherever chains lead.

mod chains;
mod clashing;
mod labelled;
mod linking;
mod rounds;
mod seconds;
mod thirds;

pub use linking::close_by_classes;
