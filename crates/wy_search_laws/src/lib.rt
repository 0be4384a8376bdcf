//! Laws of the search: what it finds is true and has a certificate, and it ends.
//!
//! `sound` and `ends` speak of the search; `closing`, `rounds`, `chains` and `sums` have steps of certificates that do what the search
//! does, `certified` and `programs` the certificates of whole conditions. There is no code here.
#![tactic(auto)]

pub mod certified;
pub mod chains;
pub mod closing;
pub mod ends;
pub mod programs;
pub mod rounds;
pub mod sound;
pub mod sums;

pub use wy_search_bounds::{
    Present, Replaced, Taking, classes, in_one_class, numbered, product_stated, replace, takings,
    terms_present,
};
