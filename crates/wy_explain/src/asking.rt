//! Questions about types, which the checker of types answers: of a program that is the same up to a point and then asks.
//!
//! The program that is asked has every declaration without its body and clauses, and behind them the one that holds the point: up
//! to the point as it is written, and then statements that ask, the last of which is `assert (E) is any`. Its flow types then
//! have the type of E at that point.
use crate::checker::{Checker, Pass};
use std::alloc::Global;
use wy_explain_source::{Class, NoMemory, Node, Page, Role, Seen, Span};

/// Where a question is asked.
#[derive(Clone, Copy, PartialEq, Eq)]
pub enum Spot {
    /// Before this statement.
    Before(usize),
    /// Where this loop makes its test.
    Head(usize),
    /// In a clause of this declaration; of its result is known where that is true.
    Clause(usize, bool),
}

/// The program that asks, and how many expressions stand behind the last question.
#[derive(Drop)]
struct Asked {
    page: Page,
    behind: usize,
}

/// The type of an expression at a spot, as a user writes it, where these statements stand before; nothing where the checker
/// refuses the program that asks.
pub fn type_at<C: Checker>(
    alloc: Global,
    seen: &Seen,
    checker: &C,
    spot: Spot,
    lines: &[Page],
    expr: &[u8],
) -> Result<Option<Page>, NoMemory> {
    let mut last = Page::new(alloc);
    last.text("assert (")?;
    last.bytes(expr)?;
    last.text(") is any")?;
    let asked = made(alloc, seen, spot, lines, last.as_slice())?;
    checker.type_before(alloc, asked.page.as_slice(), asked.behind.saturating_add(1))
}

/// Whether the checker takes a program with these statements at the spot, where no path is asked for values.
pub fn is_taken<C: Checker>(
    alloc: Global,
    seen: &Seen,
    checker: &C,
    spot: Spot,
    lines: &[Page],
) -> Result<bool, NoMemory> {
    let asked = made(alloc, seen, spot, lines, b"skip")?;
    match checker.fault(alloc, asked.page.as_slice())? {
        Some(fault) => Ok(fault.pass == Pass::Paths),
        None => Ok(true),
    }
}

fn made(
    alloc: Global,
    seen: &Seen,
    spot: Spot,
    lines: &[Page],
    last: &[u8],
) -> Result<Asked, NoMemory> {
    let mut page = Page::new(alloc);
    let own = match spot {
        Spot::Before(stmt) | Spot::Head(stmt) => decl_of(seen, stmt),
        Spot::Clause(_, _) => usize::MAX,
    };
    let mut number = 0usize;
    for node in seen.nodes.all() {
        if node.class.is_decl() && number != own {
            put_stub(&mut page, seen, number, *node)?;
        }
        number = number.saturating_add(1);
    }
    match spot {
        Spot::Before(stmt) => put_body(page, seen, own, stmt, false, lines, last),
        Spot::Head(stmt) => put_body(page, seen, own, stmt, true, lines, last),
        Spot::Clause(decl, has_result) => put_clause(page, seen, decl, has_result, lines, last),
    }
}

fn decl_of(seen: &Seen, node: usize) -> usize {
    match seen.nodes.get(node) {
        Some(node) => node.decl,
        None => usize::MAX,
    }
}

// A declaration without what it has of clauses and statements. A type with clauses stays one.
fn put_stub(page: &mut Page, seen: &Seen, number: usize, node: Node) -> Result<(), NoMemory> {
    match node.class {
        Class::Alias => {
            page.bytes(seen.text(node.span))?;
            if seen.child(number, Role::Where).is_some() {
                page.text(" where true")?;
            }
            page.text("\n")
        }
        Class::Property => {
            let to = seen.marks.line_end(node.at);
            page.bytes(seen.text(Span { from: node.at, to }))?;
            page.text("\n")
        }
        _ => {
            page.bytes(seen.text(node.span))?;
            page.text(":\n    fail\n")
        }
    }
}

// A method of the same parameters, whose body asks.
fn put_clause(
    page: Page,
    seen: &Seen,
    decl: usize,
    has_result: bool,
    lines: &[Page],
    last: &[u8],
) -> Result<Asked, NoMemory> {
    let mut page = page;
    page.text("method ask__(")?;
    let mut is_first = true;
    for node in seen.nodes.all() {
        let is_meant = match node.class {
            Class::Param | Class::Variable => true,
            Class::Output => has_result,
            _ => false,
        };
        if is_meant && node.parent == decl {
            page.text(if is_first { "" } else { ", " })?;
            page.bytes(seen.text(node.span))?;
            is_first = false;
        }
    }
    page.text("):\n")?;
    put_lines(&mut page, b"    ", lines)?;
    put_lined(&mut page, b"    ", last)?;
    Ok(Asked { page, behind: 0 })
}

fn put_lined(page: &mut Page, indent: &[u8], line: &[u8]) -> Result<(), NoMemory> {
    page.bytes(indent)?;
    page.bytes(line)?;
    page.text("\n")
}

fn put_lines(page: &mut Page, indent: &[u8], lines: &[Page]) -> Result<(), NoMemory> {
    for line in lines {
        put_lined(page, indent, line.as_slice())?;
    }
    Ok(())
}

// The function or method up to the statement, and then what asks: in a loop that makes no test where its head is meant.
fn put_body(
    page: Page,
    seen: &Seen,
    decl: usize,
    stmt: usize,
    is_head: bool,
    lines: &[Page],
    last: &[u8],
) -> Result<Asked, NoMemory> {
    let mut page = page;
    let at = match seen.nodes.get(stmt) {
        Some(node) => node.at,
        None => 0,
    };
    let first = match seen.child(decl, Role::Body) {
        Some(node) => node.at,
        None => at,
    };
    match seen.nodes.get(decl) {
        Some(node) => page.bytes(seen.text(node.span))?,
        None => {}
    }
    page.text(":\n")?;
    let indent = seen.source.indent_of(at);
    put_before(
        &mut page,
        seen,
        stmt,
        seen.source.line_of(first).from,
        indent.from,
    )?;
    let mut own = Page::new(page.alloc());
    own.bytes(seen.text(indent))?;
    if is_behind_else(seen, at) {
        put_lined(&mut page, seen.text(indent), b"else:")?;
        own.text("    ")?;
    }
    if is_head {
        put_counter(&mut page, seen, stmt, own.as_slice())?;
        put_lined(&mut page, own.as_slice(), b"while true:")?;
        own.text("    ")?;
    }
    put_lines(&mut page, own.as_slice(), lines)?;
    put_lined(&mut page, own.as_slice(), last)?;
    let behind = put_assigned(&mut page, seen, stmt, is_head, own.as_slice())?;
    if seen.result_type(decl).is_some() {
        put_lined(&mut page, seen.text(seen.source.indent_of(first)), b"fail")?;
    }
    Ok(Asked { page, behind })
}

// A `for` declares its variable.
fn put_counter(page: &mut Page, seen: &Seen, stmt: usize, indent: &[u8]) -> Result<(), NoMemory> {
    match seen.nodes.get(stmt) {
        Some(node) => {
            if node.class != Class::For {
                return Ok(());
            }
            page.bytes(indent)?;
            page.text("int ")?;
            page.bytes(seen.text(node.name))?;
            page.text(" = 0\n")
        }
        None => Ok(()),
    }
}

// Whether a statement stands behind `else` on its line.
fn is_behind_else(seen: &Seen, at: u32) -> bool {
    match seen.marks.before(at) {
        Some(mark) => seen.text(mark.span) == b"else".as_slice(),
        None => false,
    }
}

// The source between two offsets, in which each `do` around the statement is a loop that makes no test.
fn put_before(
    page: &mut Page,
    seen: &Seen,
    stmt: usize,
    from: u32,
    to: u32,
) -> Result<(), NoMemory> {
    let mut here = from;
    let mut skipped = 0u32;
    for byte in seen.text(Span { from, to }) {
        if *byte == b'd' && is_do_around(seen, stmt, here) {
            page.text("while true")?;
            skipped = 2;
        }
        if skipped > 0 {
            skipped -= 1;
        } else {
            page.repeat(*byte, 1)?;
        }
        here = here.saturating_add(1);
    }
    Ok(())
}

// Whether a `do` at the offset holds the statement.
fn is_do_around(seen: &Seen, stmt: usize, at: u32) -> bool {
    let mut here = stmt;
    for _ in 0..4096 {
        let now = match seen.nodes.get(here) {
            Some(now) => now,
            None => return false,
        };
        if now.class == Class::Do && now.at == at && here != stmt {
            return true;
        }
        here = now.parent;
    }
    false
}

// The variables that the loops around the point assign behind it, each assigned to itself; how many.
fn put_assigned(
    page: &mut Page,
    seen: &Seen,
    stmt: usize,
    is_head: bool,
    indent: &[u8],
) -> Result<usize, NoMemory> {
    let around = match outer_loop(seen, stmt, is_head) {
        Some(around) => around,
        None => return Ok(0),
    };
    let start = match seen.nodes.get(around) {
        Some(node) => node.at,
        None => 0,
    };
    let mut count = 0usize;
    let mut number = 0usize;
    for node in seen.nodes.all() {
        if node.class == Class::Assign && number >= stmt && seen.is_in(number, around) {
            let name = seen.text(node.name);
            if is_declared_before(seen, node.decl, name, start) {
                page.bytes(indent)?;
                page.bytes(name)?;
                page.text(" = ")?;
                page.bytes(name)?;
                page.text("\n")?;
                count = count.saturating_add(1);
            }
        }
        number = number.saturating_add(1);
    }
    Ok(count)
}

// The outermost loop around the point.
fn outer_loop(seen: &Seen, stmt: usize, is_head: bool) -> Option<usize> {
    let mut found = if is_head { Some(stmt) } else { None };
    let mut here = stmt;
    for _ in 0..4096 {
        let now = match seen.nodes.get(here) {
            Some(now) => now,
            None => break,
        };
        if now.class.is_loop() && here != stmt {
            found = Some(here);
        }
        here = now.parent;
    }
    found
}

fn is_declared_before(seen: &Seen, decl: usize, name: &[u8], at: u32) -> bool {
    for node in seen.nodes.all() {
        let is_meant = node.decl == decl && node.class.declares() && node.at < at;
        if is_meant && seen.text(node.name) == name {
            return true;
        }
    }
    false
}
