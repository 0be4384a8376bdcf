//! What is left out of a source, so that faults come that don't follow from one that was told.
//!
//! All places stay: what is left out becomes `fail`, `true` or `int`, and spaces. A statement becomes `fail`, behind which nothing is
//! judged; where names alone are judged, which no path changes, `skip` or a declaration without its value.
use crate::checker::{Fault, Pass};
use crate::text_faults::open_bracket;
use wy_explain_source::{Class, Node, Role, Seen, Span};

/// A stretch, and what stands in its place, with spaces behind.
#[derive(Clone, Copy)]
pub struct Hole {
    span: Span,
    filler: &'static str,
}

/// What is left out because it has the fault; nothing where that can't be.
pub fn hole_for(seen: &Seen, fault: Fault) -> Option<Hole> {
    let hole = if fault.pass == Pass::Text {
        declaration_lines(seen, fault)?
    } else {
        hole_of(seen, fault)?
    };
    if (hole.span.to.saturating_sub(hole.span.from) as usize) < hole.filler.len() {
        return None;
    }
    Some(hole)
}

/// Puts the filler and spaces in the place of the stretch. Line ends stay where there is no filler.
pub fn fill(left: &mut [u8], hole: Hole) {
    let filler = hole.filler.as_bytes();
    let mut offset = 0u32;
    for number in 0..left.len() {
        if hole.span.holds(offset) {
            let passed = offset.saturating_sub(hole.span.from) as usize;
            left[number] = match filler.get(passed) {
                Some(letter) => *letter,
                None => {
                    if left[number] == b'\n' && filler.is_empty() {
                        b'\n'
                    } else {
                        b' '
                    }
                }
            };
        }
        offset = offset.saturating_add(1);
    }
}

// The innermost part around the fault that can be left out by itself.
fn hole_of(seen: &Seen, fault: Fault) -> Option<Hole> {
    let decl = seen.decl_at(fault.at)?;
    let mut here = innermost(seen, fault.at)?;
    for _ in 0..4096 {
        if here == decl {
            break;
        }
        let node = seen.nodes.get(here)?;
        match hole_at(seen, fault, here, node) {
            Some(hole) => return Some(hole),
            None => here = node.parent,
        }
    }
    body_of(seen, decl, fault.at)
}

// The last node, and so the innermost one, at which the passes may find the fault.
fn innermost(seen: &Seen, at: u32) -> Option<usize> {
    let mut found = None;
    let mut number = 0usize;
    for node in seen.nodes.all() {
        if node.at == at || node.name.from == at {
            found = Some(number);
        }
        number = number.saturating_add(1);
    }
    found
}

// What is left out where this node is, if it can be.
fn hole_at(seen: &Seen, fault: Fault, number: usize, node: Node) -> Option<Hole> {
    let are_names = fault.pass == Pass::Names;
    if node.class == Class::NamedType {
        return holed(node.span, "int");
    }
    match node.role {
        Role::Requires | Role::Ensures | Role::Where => return holed(node.span, "true"),
        Role::Test => {
            if are_names {
                return holed(node.span, "true");
            }
        }
        _ => {}
    }
    if node.class == Class::Declare && fault.word != "Twice" {
        let value = seen.child(number, Role::Value)?;
        return holed(
            Span {
                from: node.name.to,
                to: value.span.to,
            },
            "",
        );
    }
    if !node.class.is_stmt() {
        return None;
    }
    let span = Span {
        from: node.at.min(node.span.from),
        to: seen.end_of(number),
    };
    let may_skip = node.class == Class::CallStmt
        || node.class == Class::Assign
        || node.class == Class::Declare;
    holed(
        span,
        if are_names && may_skip {
            "skip"
        } else {
            "fail"
        },
    )
}

fn holed(span: Span, filler: &'static str) -> Option<Hole> {
    Some(Hole { span, filler })
}

// The body of the function or method whose faults stand there: one in its body, or one of paths, which stands at its begin.
fn body_of(seen: &Seen, decl: usize, at: u32) -> Option<Hole> {
    let first = seen.child(decl, Role::Body)?;
    let node = seen.nodes.get(decl)?;
    if at < first.at && at != node.at {
        return None;
    }
    holed(
        Span {
            from: first.at,
            to: seen.end_of(decl),
        },
        "fail",
    )
}

// The lines of the declaration that can't be read: from the one that begins it to where the next one begins. An open bracket makes it the
// declaration where that stands.
fn declaration_lines(seen: &Seen, fault: Fault) -> Option<Hole> {
    if fault.word == "OpenComment" || fault.word == "TooMany" {
        return None;
    }
    let at = match open_bracket(seen, fault.at) {
        Some(span) => span.from,
        None => fault.at,
    };
    let mut from = 0u32;
    let mut to = Span::of(0, seen.source.bytes.len()).to;
    let mut here = 0u32;
    for line in seen.source.bytes.split(|byte| *byte == b'\n') {
        if begins_declaration(line) {
            if here <= at {
                from = here;
            } else {
                to = to.min(here);
            }
        }
        here = here
            .saturating_add(Span::of(0, line.len()).to)
            .saturating_add(1);
    }
    holed(Span { from, to }, "")
}

// Whether a line begins a declaration.
fn begins_declaration(line: &[u8]) -> bool {
    for word in ["function ", "method ", "property ", "type ", "import "] {
        if line.starts_with(word.as_bytes()) {
            return true;
        }
    }
    false
}
