//! What is told of faults and of open conditions.
//!
//! `faults` has what is told of the faults of a source: `text_faults` (with `follows`: what could stand there) and `type_faults`, beside those
//! of names and paths below; behind each `holes` leaves its part of the source out, so that the next one is found. Types are asked of a [`Checker`], by a program that is the same up to the fault (`asking`), and brought
//! back to the source's words by `type_text`.
//!
//! `conditions` has what is told of a condition: `kinds` what owes it, `clauses` and `members` which clause it owes, `choosing` which
//! facts of the open case are shown, `naming` (with `uses`) what names are called, `term_text` (with `parts`) how terms are written, `hints`
//! (with `rewriting`) how such programs are mended, and `spent` why a budget may be spent. `json` writes findings for editors.
//!
//! Nothing is promised of these texts but that they are made safely and in finite time.
#![tactic(auto)]

mod asking;
mod checker;
mod choosing;
mod clauses;
mod conditions;
mod faults;
mod follows;
mod hints;
mod holes;
mod json;
mod kinds;
mod members;
mod naming;
mod parts;
mod places;
mod rewriting;
mod spent;
mod term_text;
mod text_faults;
mod type_faults;
mod type_text;
mod uses;

pub use checker::{Checker, Fault, Pass};
pub use conditions::{OpenCase, Owed, finding_of, open_finding};
pub use faults::put_faults;
pub use json::{Style, put_styled};
pub use kinds::{owing_node, owing_span};
pub use spent::{Counted, put_spent};
pub use type_text::put_ty;
pub use wy_core::Core;
pub use wy_explain_source::{Class, Finding, Label, NoMemory, Page, Program, Seen, Source, point};
pub use wy_term::{Cond, CondKind, Conds, Terms};
