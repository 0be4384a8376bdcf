//! What a command comes to, and the steps to it that every command shares.
//!
//! `answer` has the answer of a command that streams nothing: an exit status, and the texts for both sinks. Each step of a
//! command comes to a value, with which the next one goes on, or to an answer, with which the command ends: `loading` loads
//! a file. `showing` writes an answer on the sinks. What it means that a step comes to what is due, and to nothing else, is
//! said in `specs/Steps`, where steps are also put one behind the other.
#![tactic(auto)]

mod answer;
mod loading;
pub mod report;
mod showing;
pub mod supplied;

pub use answer::{Answer, no_memory, refusal, refusal_behind};
pub use loading::{SOURCE_LIMIT, load};
pub use showing::show;
