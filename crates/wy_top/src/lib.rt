//! The commands: from the words of a command line to an exit status and to what two sinks take.
//!
//! What a source owes: `reading` reads the source and makes the conditions of its program, `listing` lists conditions, and
//! `writing` lists those of a source. `fault` has why there are no conditions, with the word and the place.
//!
//! What is known of each condition wy_batch finds, by a valid certificate that was supplied or else by a search, and `counting`
//! counts. `invalid` has the lines for certificates that were supplied and aren't valid, `refusing` those
//! for conditions that are open or whose budget is spent, with the sum, and `found` makes certificates for those that were found.
//!
//! From the file of a source to its acceptance: `owing` reads the typed program and what it owes. `judging` has the verdicts on
//! that (`others` on what no cache shows), `accepting` what they mean for the commands that ask for certificates, `checking` the command `check`, and `proving`
//! what the command comes to that makes certificates. Each step comes to a value or to the answer with which the command ends;
//! which one is due is said in `specs/Programs`, `specs/Acceptance` and `specs/Proofs`.
//!
//! `commands` has the whole call, [`run_words`]: it reads the words and does what they ask for. `texts` has the commands that
//! write a text of a source (`fmt`, `dis`, `conds`), `saving` the one that saves certificates, `launching` and `running` the
//! one that runs a program, and `making` the one that makes a large program; the one that looks for faults is in wy_top_probe.
//! What a call comes to, and what sinks and files show of it, is said in `specs/Statement`. It runs accepted programs alone,
//! and asks that these never lack a step (`specs/Going`): a law on them stands above this crate.
//!
//! `command_laws` says that it comes exactly where it is due, `verdict_laws` that there is one answer, and that where each
//! condition is closed, all of them are true, `certificate_laws` what the certificates are that were found, and
//! `code_laws` that the code of a source's program is such as a machine takes.
#![tactic(auto)]

mod accepting;
mod caching;
mod certificate_laws;
mod checking;
mod code_laws;
mod command_laws;
mod commands;
mod counting;
mod fault;
mod found;
mod invalid;
mod judging;
mod launching;
mod listing;
mod making;
mod others;
mod owing;
mod proving;
mod reading;
mod refusing;
mod renewing;
mod repeating;
mod running;
mod saving;
mod texts;
mod verdict_laws;
mod writing;

pub use certificate_laws::{
    found_certificates_are_valid, renewed_caches_keep_all, saved_certificates_are_accepted,
};
pub use code_laws::the_code_of_a_source_is_loadable;
pub use command_laws::commands_are_exact;
pub use commands::run_words;
pub use verdict_laws::closed_conditions_hold;
pub use wy_batch::one_list;
