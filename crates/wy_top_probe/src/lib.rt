//! The command `probe`: arguments on which the program of a source really faults.
//!
//! `texts` has the answer to a source that is faulted, for this command and for those that write a text of a source. `probing`
//! reads the source, finds the entry and tries the tuples; its lines are in `probe_lines`. What the command comes to is said in
//! `specs/Probing`.
//!
//! What reads a source, lists its code and starts a run is passed on, so that who needs them names this crate alone.
#![tactic(auto)]

mod probe_lines;
mod probing;
mod texts;

pub use probing::probe_answer;
pub use texts::fault_answer;
pub use wy_link_load::{Lines, load_alone, locate, wy_top_answers};
pub use wy_mach_run::{RunEnd, Start, StartFault, run_start, start, wy_flow_spec};
pub use wy_top_source::texts::{Kind, Refusal, is_no_memory, offset, read_program, text_of, word};
