//! Findings as people read them.
use crate::drawing::draw;
use crate::finding::{Finding, Label};
use crate::page::Page;
use crate::source::Source;
use wy_ast::NoMemory;

/// The most columns of a line.
const WIDEST: usize = 100;

/// Writes a finding: its place, its line with carets, what is wrong, other places, what is to be shown and what is known, and a
/// hint. Sentences are cut into lines of at most 100 columns; a fact that is longer is cut there, or not at all where all is asked for.
pub fn put_finding(
    page: &mut Page,
    source: &Source,
    finding: &Finding,
    all: bool,
) -> Result<(), NoMemory> {
    put_head(page, source, finding)?;
    draw(page, source, finding.span)?;
    put_wrapped(page, "", finding.message.as_slice())?;
    for label in finding.labels.as_slice() {
        put_label(page, source, label)?;
    }
    put_goal(page, finding, all)?;
    for name in finding.names.as_slice() {
        put_wrapped(page, "", name.as_slice())?;
    }
    put_hint(page, finding)
}

// `FILE:L:C: NotSubtype`, or `FILE:L:C: condition 3 ensures: open still`
fn put_head(page: &mut Page, source: &Source, finding: &Finding) -> Result<(), NoMemory> {
    page.text(source.name)?;
    page.text(":")?;
    page.number(source.line(finding.at))?;
    page.text(":")?;
    page.number(source.column(finding.at))?;
    page.text(": ")?;
    if finding.condition > 0 {
        page.text("condition ")?;
        page.number(finding.condition)?;
        page.text(" ")?;
    }
    page.text(finding.kind)?;
    if finding.condition > 0 {
        page.text(": ")?;
        page.text(finding.ending)?;
    }
    page.text("\n")
}

// The lines of the hint, one behind the other.
fn put_hint(page: &mut Page, finding: &Finding) -> Result<(), NoMemory> {
    if finding.hint.is_empty() {
        return Ok(());
    }
    let mut whole = Page::new(page.alloc());
    whole.text("hint:")?;
    for line in finding.hint.as_slice() {
        whole.text(" ")?;
        whole.bytes(line.as_slice())?;
    }
    put_wrapped(page, "", whole.as_slice())
}

fn put_label(page: &mut Page, source: &Source, label: &Label) -> Result<(), NoMemory> {
    put_wrapped(page, "", label.text.as_slice())?;
    match label.span {
        Some(span) => draw(page, source, span),
        None => Ok(()),
    }
}

fn put_goal(page: &mut Page, finding: &Finding, all: bool) -> Result<(), NoMemory> {
    if finding.goal.is_empty() {
        return Ok(());
    }
    put_line(page, "to show: ", finding.goal.as_slice(), all)?;
    if finding.facts.is_empty() {
        return page.text("Nothing that is known speaks of it.\n");
    }
    page.text("It isn't excluded that\n")?;
    for fact in finding.facts.as_slice() {
        put_line(page, "    ", fact.as_slice(), all)?;
    }
    if finding.hidden == 0 {
        return Ok(());
    }
    page.text("    (and ")?;
    page.number(finding.hidden)?;
    page.text(" facts more, which --all shows)\n")
}

// A line, which is cut at the last column unless all is asked for.
fn put_line(page: &mut Page, front: &str, text: &[u8], all: bool) -> Result<(), NoMemory> {
    page.text(front)?;
    let room = WIDEST.saturating_sub(front.len());
    if all || text.len() <= room {
        page.bytes(text)?;
        return page.text("\n");
    }
    let kept = room.saturating_sub(3);
    let mut count = 0usize;
    for byte in text {
        // a character isn't cut in two
        if count >= kept && (*byte < 128 || *byte >= 192) {
            break;
        }
        page.repeat(*byte, 1)?;
        count = count.saturating_add(1);
    }
    page.text(" ..\n")
}

/// Writes sentences, cut at spaces into lines of at most 100 columns.
pub fn put_wrapped(page: &mut Page, front: &str, text: &[u8]) -> Result<(), NoMemory> {
    if text.is_empty() {
        return Ok(());
    }
    page.text(front)?;
    let mut column = front.len();
    let mut is_first = true;
    for word in text.split(|byte| *byte == b' ') {
        let behind = column.saturating_add(word.len()).saturating_add(1);
        if is_first {
            is_first = false;
            column = column.saturating_add(word.len());
        } else if behind > WIDEST {
            page.text("\n")?;
            page.text(front)?;
            column = front.len().saturating_add(word.len());
        } else {
            page.text(" ")?;
            column = behind;
        }
        page.bytes(word)?;
    }
    page.text("\n")
}
