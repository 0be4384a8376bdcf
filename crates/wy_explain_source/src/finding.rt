//! What is told of one refusal.
use crate::nodes::Span;
use crate::page::Page;
use std::alloc::Global;

/// A sentence, with the place of which it speaks where there is one.
#[derive(Drop)]
pub struct Label {
    pub text: Page,
    pub span: Option<Span>,
}

/// What is told of one refusal: a fault of the source, or a condition that isn't shown.
#[derive(Drop)]
pub struct Finding {
    /// The word of the fault, or the condition's kind.
    pub kind: &'static str,
    /// The number of the condition, from 1; 0 for a fault.
    pub condition: u64,
    /// How the search ended: `open still`, `spent`. Nothing for a fault.
    pub ending: &'static str,
    /// The place that the commands give.
    pub at: u32,
    /// The construct that stands there.
    pub span: Span,
    /// What is wrong, in a sentence or two.
    pub message: Page,
    /// Other places, each with a sentence.
    pub labels: Vec<Label>,
    /// What is to be shown.
    pub goal: Page,
    /// What is known in the case that stays open, a fact each.
    pub facts: Vec<Page>,
    /// How many facts of that case aren't shown.
    pub hidden: u64,
    /// What names stand for, a name each.
    pub names: Vec<Page>,
    /// How programs of this kind are mended, line by line.
    pub hint: Vec<Page>,
}

impl Finding {
    /// A finding of which nothing is told yet.
    pub fn new(alloc: Global, kind: &'static str, at: u32, span: Span) -> Finding {
        Finding {
            kind,
            condition: 0,
            ending: "",
            at,
            span,
            message: Page::new(alloc),
            labels: Vec::new(alloc),
            goal: Page::new(alloc),
            facts: Vec::new(alloc),
            hidden: 0,
            names: Vec::new(alloc),
            hint: Vec::new(alloc),
        }
    }
}
