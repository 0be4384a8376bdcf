//! A line of the source with carets below a stretch of it.
use crate::nodes::Span;
use crate::page::Page;
use crate::source::{Source, cut};
use wy_ast::NoMemory;

/// The most columns of a line's text.
const WIDEST: usize = 91;

/// How many columns of a wider line stand before its carets.
const BEFORE: usize = 40;

/// Draws the line where the stretch begins, below it a caret under each character of the stretch that stands on that line, one at
/// least. A line of more than 91 bytes is cut around the carets.
pub fn draw(page: &mut Page, source: &Source, span: Span) -> Result<(), NoMemory> {
    let line = source.line_of(span.from);
    let text = source.cut(line);
    let from = (span.from.saturating_sub(line.from) as usize).min(text.len());
    let to = (span.to.min(line.to).saturating_sub(line.from) as usize).max(from.saturating_add(1));
    let start = if text.len() <= WIDEST || from <= BEFORE {
        0
    } else {
        from.saturating_sub(BEFORE)
    };
    let end = start.saturating_add(WIDEST).min(text.len());
    let is_text = str::from_utf8(text).is_ok();
    margin(page, source.line(span.from))?;
    for byte in cut(text, start, end) {
        put_byte(page, *byte, is_text)?;
    }
    page.text("\n")?;
    margin(page, 0)?;
    for byte in cut(text, start, from) {
        put_blank(page, *byte, is_text)?;
    }
    let marked = cut(text, from, to.min(end));
    page.repeat(b'^', characters(marked, is_text).max(1))?;
    page.text("\n")
}

// The margin with a line's number, or without one where it is 0.
fn margin(page: &mut Page, line: u64) -> Result<(), NoMemory> {
    let mut room = 5usize;
    let mut rest = line;
    for _ in 0..20 {
        if rest == 0 {
            break;
        }
        rest /= 10;
        room = room.saturating_sub(1);
    }
    page.repeat(b' ', room)?;
    if line > 0 {
        page.number(line)?;
    }
    page.text(" | ")
}

// Whether the byte is a character of its own, or begins one.
fn begins(byte: u8, is_text: bool) -> bool {
    !is_text || byte < 128 || byte >= 192
}

fn characters(bytes: &[u8], is_text: bool) -> usize {
    let mut count = 0usize;
    for byte in bytes {
        if begins(*byte, is_text) {
            count = count.saturating_add(1);
        }
    }
    count
}

// A byte as it is shown: a byte of no text as a question mark.
fn put_byte(page: &mut Page, byte: u8, is_text: bool) -> Result<(), NoMemory> {
    let shown = if byte < 128 || is_text { byte } else { b'?' };
    page.repeat(shown, 1)
}

// What stands below a byte before the carets.
fn put_blank(page: &mut Page, byte: u8, is_text: bool) -> Result<(), NoMemory> {
    if byte == b'\t' {
        return page.repeat(b'\t', 1);
    }
    if begins(byte, is_text) {
        return page.repeat(b' ', 1);
    }
    Ok(())
}
