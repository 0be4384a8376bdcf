//! Faults of paths: a variable that may have no value, a body that may end without a result.
use crate::{Class, Finding, NoMemory, Node, Page, Role, Seen, Span, hint, point};
use std::alloc::Global;

/// What is told of a fault of paths at this place.
pub fn path_fault(
    alloc: Global,
    seen: &Seen,
    word: &'static str,
    at: u32,
) -> Result<Finding, NoMemory> {
    let mut finding = Finding::new(alloc, word, at, seen.mark_at(at));
    match word {
        "Unset" => unset(alloc, seen, &mut finding)?,
        _ => no_return(alloc, seen, &mut finding)?,
    }
    Ok(finding)
}

fn unset(alloc: Global, seen: &Seen, finding: &mut Finding) -> Result<(), NoMemory> {
    let name = seen.text(finding.span);
    let decl = seen.decl_at(finding.at).unwrap_or(0);
    finding.message.code(name)?;
    finding.message.text(" has no value here on some path.")?;
    let mut declared = 0u32;
    for node in seen.nodes.all() {
        if node.class == Class::Declare && node.decl == decl && seen.text(node.name) == name {
            let mut page = Page::new(alloc);
            page.text("It is declared here without one:")?;
            point(finding, page, node.span)?;
            declared = node.at;
        }
    }
    match one_sided(
        seen,
        decl,
        name,
        Span {
            from: declared,
            to: finding.at,
        },
    ) {
        Some((node, words)) => {
            let mut page = Page::new(alloc);
            page.text(words)?;
            point(finding, page, node.span)?;
        }
        None => {}
    }
    hint(
        alloc,
        finding,
        "give it a value where it is declared, or on each path; the test of a `do` counts what its body sets first as unset",
    )
}

// An `if` or a loop between two places that assigns the variable on one side alone, with words for it.
fn one_sided(seen: &Seen, decl: usize, name: &[u8], within: Span) -> Option<(Node, &'static str)> {
    let mut number = 0usize;
    for node in seen.nodes.all() {
        let is_between = node.decl == decl && within.holds(node.at);
        if is_between && node.class == Class::If {
            let first = assigns(seen, number, Role::Body, name);
            let second = assigns(seen, number, Role::Else, name);
            if first && !second {
                return Some((*node, "Where this test is false, nothing assigns it:"));
            }
            if second && !first {
                return Some((*node, "Where this test is true, nothing assigns it:"));
            }
        }
        if is_between
            && (node.class == Class::While || node.class == Class::For)
            && assigns(seen, number, Role::Body, name)
        {
            return Some((*node, "Where this loop makes no turn, nothing assigns it:"));
        }
        if is_between && node.class == Class::Switch && assigns(seen, number, Role::Body, name) {
            return Some((
                *node,
                "Not each case of this `switch`, or none of them, assigns it:",
            ));
        }
        number = number.saturating_add(1);
    }
    None
}

// Whether that part of the statement has an assignment to the variable.
fn assigns(seen: &Seen, stmt: usize, role: Role, name: &[u8]) -> bool {
    let mut number = 0usize;
    for node in seen.nodes.all() {
        if node.class == Class::Assign
            && seen.text(node.name) == name
            && is_in_part(seen, number, stmt, role)
        {
            return true;
        }
        number = number.saturating_add(1);
    }
    false
}

// Whether the node lies in that part of the statement.
fn is_in_part(seen: &Seen, node: usize, stmt: usize, role: Role) -> bool {
    let mut here = node;
    for _ in 0..4096 {
        let now = match seen.nodes.get(here) {
            Some(now) => now,
            None => return false,
        };
        if now.parent == stmt {
            return now.role == role;
        }
        here = now.parent;
    }
    false
}

fn no_return(alloc: Global, seen: &Seen, finding: &mut Finding) -> Result<(), NoMemory> {
    let decl = seen.decl_at(finding.at).unwrap_or(0);
    let node = match seen.nodes.get(decl) {
        Some(node) => node,
        None => return Ok(()),
    };
    finding.span = node.span;
    finding.message.text("A path through the body of ")?;
    finding.message.code(seen.text(node.name))?;
    finding
        .message
        .text(" ends without `return`, and a value of type ")?;
    match seen.result_type(decl) {
        Some(ty) => finding.message.code(seen.text(ty.span))?,
        None => {}
    }
    finding.message.text(" is owed.")?;
    match open_end(alloc, seen, decl)? {
        Some((end, words)) => {
            let mut page = Page::new(alloc);
            page.text(words)?;
            point(finding, page, end.span)?;
        }
        None => {}
    }
    hint(
        alloc,
        finding,
        "end the path with `return`, or with `fail` where it is never reached, which is then owed as a condition",
    )
}

// The last statement of that part of a node.
fn last_of(seen: &Seen, parent: usize, role: Role) -> Option<usize> {
    let mut found = None;
    let mut number = 0usize;
    for node in seen.nodes.all() {
        if node.parent == parent && node.role == role && node.class.is_stmt() {
            found = Some(number);
        }
        number = number.saturating_add(1);
    }
    found
}

// A statement behind which the body may end, with words for it.
fn open_end(
    alloc: Global,
    seen: &Seen,
    decl: usize,
) -> Result<Option<(Node, &'static str)>, NoMemory> {
    let mut here = last_of(seen, decl, Role::Body);
    for _ in 0..4096 {
        let number = match here {
            Some(number) => number,
            None => return Ok(None),
        };
        let node = match seen.nodes.get(number) {
            Some(node) => node,
            None => return Ok(None),
        };
        if node.class != Class::If {
            return Ok(Some((node, end_words(node.class))));
        }
        let first = last_of(seen, number, Role::Body);
        let second = last_of(seen, number, Role::Else);
        if second.is_none() {
            return Ok(Some((node, "Where this test is false, the body ends:")));
        }
        here = if is_closed(alloc, seen, first)? {
            second
        } else {
            first
        };
    }
    Ok(None)
}

fn end_words(class: Class) -> &'static str {
    match class {
        Class::While | Class::Do | Class::For => "Behind this loop the body ends:",
        Class::Switch =>
            "Behind this `switch` the body ends, where no case is met or one ends without `return`:",
        _ => "Behind this statement the body ends:",
    }
}

// Whether no path goes on behind a statement.
fn is_closed(alloc: Global, seen: &Seen, stmt: Option<usize>) -> Result<bool, NoMemory> {
    let mut rest: Vec<Option<usize>> = Vec::new(alloc);
    rest.push(stmt)?;
    for _ in 0..65_536 {
        let number = match rest.pop() {
            Some(Some(number)) => number,
            Some(None) => return Ok(false),
            None => return Ok(true),
        };
        match class_at(seen, number) {
            Some(Class::Return | Class::Fail) => {}
            Some(Class::If) => {
                rest.push(last_of(seen, number, Role::Body))?;
                rest.push(last_of(seen, number, Role::Else))?;
            }
            _ => return Ok(false),
        }
    }
    Ok(false)
}

fn class_at(seen: &Seen, number: usize) -> Option<Class> {
    match seen.nodes.get(number) {
        Some(node) => Some(node.class),
        None => None,
    }
}
