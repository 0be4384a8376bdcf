//! From the bytes of a source to a typed and assigned program, or to why it is refused.
//!
//! `reading` has the call [`read_program`], the passes one behind the other: tokens and program (`wy_parse_front`), names and
//! lowering (`wy_names`), flow types (`wy_flow`), definite assignment (`wy_assign`). `refusal` has what is refused, with
//! its word and its place, and `law` that a source has one core, and that one with a program has no refusal.
#![tactic(auto)]

mod law;
mod reading;
mod refusal;
pub mod texts;

pub use law::{a_program_is_refused_for_nothing, a_source_has_one_core};
pub use reading::read_program;
pub use refusal::{Refusal, is_no_memory, offset, word};
