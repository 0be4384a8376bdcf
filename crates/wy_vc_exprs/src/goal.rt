//! A goal that is owed at a place.
use wy_term::CondKind;

/// A goal of a kind that is owed at a place, a byte offset, under hypotheses. The numbers are those of a list of terms.
#[derive(Drop)]
pub struct Goal {
    pub kind: CondKind,
    pub at: u32,
    pub hyps: Vec<u32>,
    pub goal: u32,
}
