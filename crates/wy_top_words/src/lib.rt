//! The words of the command line.
//!
//! `read_words` makes of the words behind the program's own name the command that they ask for, with its operands, its
//! options and their defaults, or refuses them. The words are read by `clap`, and no text of it is shown.
#![tactic(auto)]

mod command;
mod declared;
mod law;
mod number;
mod probing;
mod read;
mod repeating;

pub use command::{Ordered, Words};
pub use law::{lines_mean, workers_change_nothing};
pub use read::{WordsFault, read_words};
