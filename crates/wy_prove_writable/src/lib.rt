//! Whether a certificate that was made can be written, so that it is read again as it is.
//!
//! `ranges` has the names and numbers that stand in a node beside its parts, `folding` makes a term once more, to see whether
//! it is folded, and `listed` goes through the terms of a certificate by both. `numbers` has the numbers in steps, `arguments` the
//! terms, and `testing` goes through the steps. `law` says that the steps of a valid certificate are those of one tree, which the
//! writer asks too.
#![tactic(auto)]

mod arguments;
mod folding;
mod law;
mod listed;
mod numbers;
mod ranges;
mod sorted;
mod testing;

pub use law::valid_certificates_are_trees;
pub use testing::is_certificate_writable;
