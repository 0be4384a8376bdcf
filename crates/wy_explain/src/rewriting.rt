//! A hint's rewriting with the words of the source.
use crate::places::{Wanted, node_there};
use std::alloc::Global;
use wy_explain_source::{Class, NoMemory, Node, Page, Role, Seen, Span};

/// What is written in place of the line that the hint is about, where the source shows that plainly: for the hint with this number,
/// of a condition at this place with this clause.
pub fn rewritten(
    alloc: Global,
    seen: &Seen,
    number: usize,
    at: u32,
    clause: Option<u32>,
) -> Result<Option<Page>, NoMemory> {
    let mut page = Page::new(alloc);
    page.text("here: ")?;
    let decl = seen.decl_at(at).unwrap_or(0);
    let is_done = match number {
        0 | 5 => part_updated(seen, &mut page, decl)?,
        2 => truth_in_two(seen, &mut page, decl, clause)?,
        4 => fields_apart(seen, &mut page, clause)?,
        6 => new_array(seen, &mut page, decl)?,
        7 => factors_bounded(seen, &mut page, at)?,
        _ => false,
    };
    Ok(if is_done { Some(page) } else { None })
}

// The nodes of a declaration that are of this class, the first of them.
fn first_of(seen: &Seen, decl: usize, class: Class) -> Option<usize> {
    let mut number = 0usize;
    for node in seen.nodes.all() {
        if node.decl == decl && node.class == class {
            return Some(number);
        }
        number = number.saturating_add(1);
    }
    None
}

// The last step of the first assignment to a part of a part.
fn deep_step(seen: &Seen, decl: usize) -> Option<Node> {
    let mut found: Option<Node> = None;
    let mut last = usize::MAX;
    for node in seen.nodes.all() {
        if node.decl != decl || node.role != Role::Step {
            continue;
        }
        let is_next = node.parent == last;
        if !is_next && found.is_some() {
            break;
        }
        last = node.parent;
        if is_next {
            found = Some(*node);
        }
    }
    found
}

// `T part = s.items`, `part[i] = x`, `s.items = part`
fn part_updated(seen: &Seen, page: &mut Page, decl: usize) -> Result<bool, NoMemory> {
    let step = match deep_step(seen, decl) {
        Some(step) => step,
        None => return Ok(false),
    };
    let stmt = match seen.nodes.get(step.parent) {
        Some(stmt) => stmt,
        None => return Ok(false),
    };
    let value = match seen.child(step.parent, Role::Value) {
        Some(value) => value,
        None => return Ok(false),
    };
    let whole = seen.text(Span {
        from: stmt.at,
        to: step.span.from,
    });
    page.text("`T part = ")?;
    page.bytes(whole)?;
    page.text("` with its type for T, `part")?;
    page.bytes(seen.text(step.span))?;
    page.text(" = ")?;
    page.bytes(seen.text(value.span))?;
    page.text("`, `")?;
    page.bytes(whole)?;
    page.text(" = part`")?;
    Ok(true)
}

fn clause_sides(seen: &Seen, clause: Option<u32>) -> Option<(Node, Node)> {
    let number = node_there(seen, clause?, Wanted::Expr)?;
    let left = seen.child(number, Role::Left)?;
    let right = seen.child(number, Role::Right)?;
    Some((left, right))
}

// `ensures r ==> F` and `ensures !r ==> !(F)`
fn truth_in_two(
    seen: &Seen,
    page: &mut Page,
    decl: usize,
    clause: Option<u32>,
) -> Result<bool, NoMemory> {
    let (left, right) = match clause_sides(seen, clause) {
        Some(sides) => sides,
        None => return Ok(false),
    };
    let output = match first_of(seen, decl, Class::Output) {
        Some(number) => match seen.nodes.get(number) {
            Some(output) => seen.text(output.name),
            None => return Ok(false),
        },
        None => return Ok(false),
    };
    let other = if seen.text(left.span) == output {
        right
    } else if seen.text(right.span) == output {
        left
    } else {
        return Ok(false);
    };
    page.text("`ensures ")?;
    page.bytes(output)?;
    page.text(" ==> ")?;
    page.bytes(seen.text(other.span))?;
    page.text("` and `ensures !")?;
    page.bytes(output)?;
    page.text(" ==> !(")?;
    page.bytes(seen.text(other.span))?;
    page.text(")`")?;
    Ok(true)
}

// `ensures r.x == a`, a clause for each field
fn fields_apart(seen: &Seen, page: &mut Page, clause: Option<u32>) -> Result<bool, NoMemory> {
    let (left, right) = match clause_sides(seen, clause) {
        Some(sides) => sides,
        None => return Ok(false),
    };
    let (whole, record) = if right.class == Class::Record {
        (left, right)
    } else {
        (right, left)
    };
    let mut is_first = true;
    for node in seen.nodes.all() {
        let is_inside = node.class == Class::RecordField && record.span.holds(node.at);
        let of_record = match seen.nodes.get(node.parent) {
            Some(parent) => parent.at == record.at,
            None => false,
        };
        if !is_inside || !of_record {
            continue;
        }
        page.text(if is_first { "`ensures " } else { ", `ensures " })?;
        page.bytes(seen.text(whole.span))?;
        page.text(".")?;
        page.bytes(seen.text(node.name))?;
        page.text(" == ")?;
        page.bytes(seen.text(node.span))?;
        page.text("`")?;
        is_first = false;
    }
    Ok(!is_first)
}

// `assert all { k in 0..n | a[k] == e }`
fn new_array(seen: &Seen, page: &mut Page, decl: usize) -> Result<bool, NoMemory> {
    let number = match first_of(seen, decl, Class::Repeat) {
        Some(number) => number,
        None => return Ok(false),
    };
    let parent = match seen.nodes.get(number) {
        Some(node) => seen.nodes.get(node.parent),
        None => None,
    };
    let (item, count) = match (
        seen.child(number, Role::Left),
        seen.child(number, Role::Right),
    ) {
        (Some(item), Some(count)) => (item, count),
        _ => return Ok(false),
    };
    match parent {
        Some(stmt) => {
            if stmt.class != Class::Declare && stmt.class != Class::Assign {
                return Ok(false);
            }
            page.text("`assert all { k in 0..")?;
            page.bytes(seen.text(count.span))?;
            page.text(" | ")?;
            page.bytes(seen.text(stmt.name))?;
            page.text("[k] == ")?;
            page.bytes(seen.text(item.span))?;
            page.text(" }`")?;
            Ok(true)
        }
        None => Ok(false),
    }
}

// `assert a <= 1000000000` for both factors
fn factors_bounded(seen: &Seen, page: &mut Page, at: u32) -> Result<bool, NoMemory> {
    let number = match node_there(seen, at, Wanted::Expr) {
        Some(number) => number,
        None => return Ok(false),
    };
    let is_product = match seen.nodes.get(number) {
        Some(node) => node.class == Class::Arithmetic,
        None => false,
    };
    match (
        seen.child(number, Role::Left),
        seen.child(number, Role::Right),
    ) {
        (Some(left), Some(right)) => {
            page.text("`assert ")?;
            page.bytes(seen.text(left.span))?;
            page.text(" <= 1000000000` and `assert ")?;
            page.bytes(seen.text(right.span))?;
            page.text(" <= 1000000000` before it, with bounds that you know")?;
            Ok(is_product)
        }
        _ => Ok(false),
    }
}
