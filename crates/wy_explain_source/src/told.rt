//! Findings, put together.
use crate::{Finding, Label, NoMemory, Page, Span};
use std::alloc::Global;

/// Puts another place behind those of a finding, with its sentence.
pub fn point(finding: &mut Finding, text: Page, span: Span) -> Result<(), NoMemory> {
    finding.labels.push(Label {
        text,
        span: Some(span),
    })?;
    Ok(())
}

/// Puts a place with a plain sentence.
pub fn point_at(
    alloc: Global,
    finding: &mut Finding,
    text: &str,
    span: Span,
) -> Result<(), NoMemory> {
    let mut page = Page::new(alloc);
    page.text(text)?;
    point(finding, page, span)
}

/// Puts a line of a hint.
pub fn hint(alloc: Global, finding: &mut Finding, text: &str) -> Result<(), NoMemory> {
    let mut page = Page::new(alloc);
    page.text(text)?;
    finding.hint.push(page)?;
    Ok(())
}
