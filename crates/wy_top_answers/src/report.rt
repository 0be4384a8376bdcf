//! The lines of the commands: refusals, verdicts, runs and the list of conditions.
//!
//! `lines` has a line for each thing that a command reports, `listing` a condition as it is printed, with the texts of
//! formulas that `shown` keeps, and `law` a line of each kind written out. Texts alone:
//! which line comes when, and on which sink, is the top call's.

mod law;
mod lines;
mod listing;
mod shown;

pub use law::lines_are_as_shown;
pub use lines::{
    accepted, bad_argument, certificate_fault, invalid_step, no_entry, open_condition, other_count,
    other_type, refused, requires_fails, save_failed, source_fault, spent_condition, stats,
    steps_spent, turns_spent, words_refused,
};
pub use listing::listed;
pub use shown::{Shown, nothing_shown};
