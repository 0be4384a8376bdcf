//! Findings for editors: an object of JSON each.
use serde_json::{Value, json};
use std::alloc::{AllocError, Global};
use wy_explain_source::{Finding, Label, NoMemory, Page, Source, Span, put_finding};

/// How findings are written.
#[derive(Clone, Copy, PartialEq, Eq)]
pub enum Style {
    /// For people.
    Short,
    /// For people, with each fact, whole.
    Whole,
    /// For editors: an object a line.
    Json,
}

/// Writes a finding.
pub fn put_styled(
    page: &mut Page,
    source: &Source,
    finding: &Finding,
    style: Style,
) -> Result<(), NoMemory> {
    match style {
        Style::Short => put_finding(page, source, finding, false),
        Style::Whole => put_finding(page, source, finding, true),
        Style::Json => {
            let object = object_of(page.alloc(), source, finding)?;
            let line = object.to_string(page.alloc())?;
            page.text(line.as_str())?;
            page.text("\n")
        }
    }
}

fn object_of(alloc: Global, source: &Source, finding: &Finding) -> Result<Value, AllocError> {
    let end = finding.span.to.max(finding.at);
    json!(in alloc; {
        "file": source.name,
        "line": source.line(finding.at),
        "column": source.column(finding.at),
        "end": {"line": source.line(end), "column": source.column(end)},
        "kind": finding.kind,
        "condition": finding.condition,
        "ending": finding.ending,
        "message": text_of(alloc, finding.message.as_slice())?,
        "places": places_of(alloc, source, finding)?,
        "goal": text_of(alloc, finding.goal.as_slice())?,
        "literals": texts_of(alloc, finding.facts.as_slice())?,
        "hidden": finding.hidden,
        "names": texts_of(alloc, finding.names.as_slice())?,
        "hint": texts_of(alloc, finding.hint.as_slice())?
    })
}

// Other places that are told, that of the clause that is owed first, each with its sentence.
fn places_of(alloc: Global, source: &Source, finding: &Finding) -> Result<Vec<Value>, AllocError> {
    let mut places = Vec::new(alloc);
    for label in finding.labels.as_slice() {
        let place = place_of(alloc, source, label)?;
        places.push(place)?;
    }
    Ok(places)
}

fn place_of(alloc: Global, source: &Source, label: &Label) -> Result<Value, AllocError> {
    let message = text_of(alloc, label.text.as_slice())?;
    match label.span {
        Some(span) => json!(in alloc; {
            "message": message,
            "line": source.line(span.from),
            "column": source.column(span.from),
            "text": text_of(alloc, source.cut(span))?
        }),
        None => json!(in alloc; {"message": message}),
    }
}

fn texts_of(alloc: Global, pages: &[Page]) -> Result<Vec<Value>, AllocError> {
    let mut texts = Vec::new(alloc);
    for page in pages {
        let text = text_of(alloc, page.as_slice())?;
        texts.push(Value::from(text))?;
    }
    Ok(texts)
}

// The text of bytes. Those of no text are told by question marks.
fn text_of(alloc: Global, bytes: &[u8]) -> Result<String, AllocError> {
    let mut text = String::new(alloc);
    match str::from_utf8(bytes) {
        Ok(whole) => text.push_str(whole)?,
        Err(_) => {
            for byte in bytes {
                text.push(if byte.is_ascii() {
                    char::from(*byte)
                } else {
                    '?'
                })?;
            }
        }
    }
    Ok(text)
}
