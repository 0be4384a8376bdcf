//! Certificates and their text.
//!
//! `step` has the steps. `read` is the reader of a certificate file with its faults: it takes the conditions' trees of
//! steps one by one (`tree`), and a tree line by line (`line`), where a line begins with a word (`verb`) and goes on with
//! numbers (`numbers`) or terms (`arguments`). `write` makes the text of certificates. `specs/Lines.antt` says which line
//! spells which step, and `specs/File.antt` what a file is read as.
#![tactic(auto)]

mod arguments;
mod fault;
mod line;
mod numbers;
mod read;
mod step;
mod tree;
mod verb;
pub mod writing;

pub use fault::CertFault;
pub use read::read_certs;
pub use step::{Cert, Certs, Step};
pub use verb::Verb;
