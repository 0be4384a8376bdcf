//! Faults of types.
use crate::asking::{Spot, is_taken, type_at};
use crate::checker::Checker;
use crate::places::{Wanted, node_there};
use std::alloc::Global;
use wy_explain_source::{
    Class, Finding, NoMemory, Node, Page, Role, Seen, Span, hint, point, point_at,
};

/// What is told of a fault of types at this place.
pub fn type_fault<C: Checker>(
    alloc: Global,
    seen: &Seen,
    checker: &C,
    word: &'static str,
    at: u32,
) -> Result<Finding, NoMemory> {
    let mut finding = Finding::new(alloc, word, at, seen.mark_at(at));
    match word {
        "NotSubtype" => not_subtype(alloc, seen, checker, &mut finding)?,
        "NotArray" => not_part(alloc, seen, checker, &mut finding, "an array is needed")?,
        "NoField" => no_field(alloc, seen, checker, &mut finding)?,
        "NotBool" => not_bool(alloc, seen, checker, &mut finding)?,
        "NotInt" => not_int(alloc, seen, checker, &mut finding)?,
        _ => {
            finding.message.text(
                "A question about the types here is too wide: it reaches more than 16,384 cases. Give unions of records fewer members, or test and name the parts one by one.",
            )?;
        }
    }
    Ok(finding)
}

/// The point where an expression is typed, and the statements that narrow there what they narrow in the program.
#[derive(Drop)]
struct Point {
    spot: Option<Spot>,
    lines: Vec<Page>,
}

// The point of an expression: the statement or the clause around it, behind what holds where its right sides are walked.
fn point_of(alloc: Global, seen: &Seen, node: usize) -> Result<Point, NoMemory> {
    let mut lines: Vec<Page> = Vec::new(alloc);
    let mut here = node;
    let mut spot = None;
    for _ in 0..4096 {
        let now = match seen.nodes.get(here) {
            Some(now) => now,
            None => break,
        };
        spot = spot_of(seen, here, now);
        if spot.is_some() {
            break;
        }
        put_known(alloc, seen, &mut lines, now)?;
        here = now.parent;
    }
    lines.reverse();
    Ok(Point { spot, lines })
}

// Where a node that is no part of an expression is typed.
fn spot_of(seen: &Seen, number: usize, node: Node) -> Option<Spot> {
    if node.class.is_stmt() {
        return Some(Spot::Before(number));
    }
    let parent = seen.nodes.get(node.parent)?;
    if parent.class.is_loop() && (node.role == Role::Test || node.role == Role::Where) {
        return Some(Spot::Head(node.parent));
    }
    match node.role {
        Role::Requires => Some(Spot::Clause(node.parent, false)),
        Role::Ensures => Some(Spot::Clause(node.parent, true)),
        Role::Where => Some(Spot::Clause(node.parent, false)),
        _ => None,
    }
}

// What is known of a part of its parent: the left side of `&&` before the right one, and the like.
fn put_known(
    alloc: Global,
    seen: &Seen,
    lines: &mut Vec<Page>,
    node: Node,
) -> Result<(), NoMemory> {
    let parent = match seen.nodes.get(node.parent) {
        Some(parent) => parent,
        None => return Ok(()),
    };
    match parent.class {
        Class::And | Class::Implies => {
            if node.role == Role::Right {
                push_known(alloc, seen, lines, node.parent, "assert (")?;
            }
        }
        Class::Or => {
            if node.role == Role::Right {
                push_known(alloc, seen, lines, node.parent, "assert !(")?;
            }
        }
        Class::Quant => {
            for other in seen.nodes.all() {
                if other.parent == node.parent && other.class == Class::Range {
                    let mut line = Page::new(alloc);
                    line.text("int ")?;
                    line.bytes(seen.text(other.name))?;
                    line.text(" = 0")?;
                    lines.push(line)?;
                }
            }
        }
        _ => {}
    }
    Ok(())
}

fn push_known(
    alloc: Global,
    seen: &Seen,
    lines: &mut Vec<Page>,
    parent: usize,
    front: &str,
) -> Result<(), NoMemory> {
    match seen.child(parent, Role::Left) {
        Some(left) => {
            let mut line = Page::new(alloc);
            line.text(front)?;
            line.bytes(seen.text(left.span))?;
            line.text(")")?;
            lines.push(line)?;
            Ok(())
        }
        None => Ok(()),
    }
}

// The type of a stretch of the source at a point.
fn type_of<C: Checker>(
    alloc: Global,
    seen: &Seen,
    checker: &C,
    point: &Point,
    span: Span,
) -> Result<Option<Page>, NoMemory> {
    match point.spot {
        Some(spot) => type_at(
            alloc,
            seen,
            checker,
            spot,
            point.lines.as_slice(),
            seen.text(span),
        ),
        None => Ok(None),
    }
}

// Puts ``E` is of type `T``, where that is known.
fn put_is(
    finding: &mut Finding,
    seen: &Seen,
    span: Span,
    ty: &Option<Page>,
) -> Result<(), NoMemory> {
    finding.message.code(seen.text(span))?;
    match ty {
        Some(ty) => {
            finding.message.text(" is of type ")?;
            finding.message.code(ty.as_slice())
        }
        None => finding.message.text(" may be of another type"),
    }
}

// ---- NotSubtype

fn not_subtype<C: Checker>(
    alloc: Global,
    seen: &Seen,
    checker: &C,
    finding: &mut Finding,
) -> Result<(), NoMemory> {
    let number = match node_there(seen, finding.at, Wanted::Caller) {
        Some(number) => number,
        None => return Ok(()),
    };
    let node = match seen.nodes.get(number) {
        Some(node) => node,
        None => return Ok(()),
    };
    finding.span = node.span;
    match node.class {
        Class::Return => {
            let ty = seen.result_type(node.decl);
            not_within(
                alloc,
                seen,
                checker,
                finding,
                number,
                Role::Value,
                ty,
                "the result's type",
            )
        }
        Class::Declare => {
            let ty = seen.child(number, Role::Type);
            not_within(
                alloc,
                seen,
                checker,
                finding,
                number,
                Role::Value,
                ty,
                "the variable's type",
            )
        }
        Class::Assign => assigned(alloc, seen, checker, finding, number, node),
        Class::For => {
            not_within(
                alloc,
                seen,
                checker,
                finding,
                number,
                Role::From,
                None,
                "int",
            )?;
            finding.message.text(" ")?;
            not_within(alloc, seen, checker, finding, number, Role::To, None, "int")
        }
        _ => called(alloc, seen, checker, finding, number, node),
    }
}

// The value of a statement lies outside of a type that is written elsewhere.
fn not_within<C: Checker>(
    alloc: Global,
    seen: &Seen,
    checker: &C,
    finding: &mut Finding,
    stmt: usize,
    role: Role,
    ty: Option<Node>,
    what: &str,
) -> Result<(), NoMemory> {
    let value = match seen.child(stmt, role) {
        Some(value) => value,
        None => return Ok(()),
    };
    let point = Point {
        spot: Some(Spot::Before(stmt)),
        lines: Vec::new(alloc),
    };
    let own = type_of(alloc, seen, checker, &point, value.span)?;
    put_is(finding, seen, value.span, &own)?;
    match ty {
        Some(ty) => outside(
            alloc, seen, checker, finding, &point, value.span, &own, ty, what,
        ),
        None => {
            finding.message.text(", and `")?;
            finding.message.text(what)?;
            finding.message.text("` is needed.")
        }
    }
}

// Behind the type of the value: the type that is asked for, and which of the value's values lie outside.
fn outside<C: Checker>(
    alloc: Global,
    seen: &Seen,
    checker: &C,
    finding: &mut Finding,
    at: &Point,
    value: Span,
    own: &Option<Page>,
    ty: Node,
    what: &str,
) -> Result<(), NoMemory> {
    let asked = seen.text(ty.span);
    finding.message.text(", and ")?;
    finding.message.text(what)?;
    finding.message.text(" is ")?;
    finding.message.code(asked)?;
    let left = type_outside(alloc, seen, checker, at, value, asked)?;
    match (left, own) {
        (Some(left), Some(own)) => {
            if left.as_slice() != own.as_slice() && left.as_slice() != b"void".as_slice() {
                finding.message.text(": what is ")?;
                finding.message.code(left.as_slice())?;
                finding.message.text(" lies outside")?;
            }
            finding.message.text(".")?;
            mended(alloc, seen, finding, value, left.as_slice(), own.as_slice())?;
        }
        _ => finding.message.text(".")?,
    }
    if ty.at >= finding.span.from && ty.at < finding.span.to {
        return Ok(());
    }
    let mut page = Page::new(alloc);
    page.text("The type stands here:")?;
    point(finding, page, ty.span)
}

// The type of those values of an expression that aren't in a type.
fn type_outside<C: Checker>(
    alloc: Global,
    seen: &Seen,
    checker: &C,
    at: &Point,
    value: Span,
    asked: &[u8],
) -> Result<Option<Page>, NoMemory> {
    let spot = match at.spot {
        Some(spot) => spot,
        None => return Ok(None),
    };
    let mut lines = copied(alloc, at.lines.as_slice())?;
    let mut line = Page::new(alloc);
    line.text("any value__ = (")?;
    line.bytes(seen.text(value))?;
    line.text(")")?;
    lines.push(line)?;
    let mut line = Page::new(alloc);
    line.text("assert !(value__ is (")?;
    line.bytes(asked)?;
    line.text("))")?;
    lines.push(line)?;
    type_at(alloc, seen, checker, spot, lines.as_slice(), b"value__")
}

// The lines once more.
fn copied(alloc: Global, lines: &[Page]) -> Result<Vec<Page>, NoMemory> {
    let mut made: Vec<Page> = Vec::new(alloc);
    for known in lines {
        let mut line = Page::new(alloc);
        line.bytes(known.as_slice())?;
        made.push(line)?;
    }
    Ok(made)
}

// A test that mends it, where the value is a variable.
fn mended(
    alloc: Global,
    seen: &Seen,
    finding: &mut Finding,
    value: Span,
    left: &[u8],
    own: &[u8],
) -> Result<(), NoMemory> {
    let is_variable = match node_there(seen, value.from, Wanted::Variable) {
        Some(number) => match seen.nodes.get(number) {
            Some(node) => node.span == value,
            None => false,
        },
        None => false,
    };
    if !is_variable || left == own || left.len() > 30 || left == b"void".as_slice() {
        return Ok(());
    }
    let mut page = Page::new(alloc);
    page.text("test it before: behind `if ")?;
    page.bytes(seen.text(value))?;
    page.text(" is ")?;
    page.bytes(left)?;
    page.text(":` with a block that ends in `return` or `fail`, the value is none of these")?;
    finding.hint.push(page)?;
    Ok(())
}

fn assigned<C: Checker>(
    alloc: Global,
    seen: &Seen,
    checker: &C,
    finding: &mut Finding,
    number: usize,
    node: Node,
) -> Result<(), NoMemory> {
    let name = seen.text(node.name);
    let ty = seen.declared(node.decl, name);
    match seen.child(number, Role::Step) {
        None => not_within(
            alloc,
            seen,
            checker,
            finding,
            number,
            Role::Value,
            ty,
            "the variable's type",
        ),
        Some(_) => {
            let value = match seen.child(number, Role::Value) {
                Some(value) => value,
                None => return Ok(()),
            };
            let point = Point {
                spot: Some(Spot::Before(number)),
                lines: Vec::new(alloc),
            };
            let own = type_of(alloc, seen, checker, &point, value.span)?;
            put_is(finding, seen, value.span, &own)?;
            finding.message.text(", and with it in its part ")?;
            finding.message.code(name)?;
            finding.message.text(" is no more of its declared type.")?;
            match ty {
                Some(ty) => point_at(alloc, finding, "The type stands here:", ty.span),
                None => Ok(()),
            }
        }
    }
}

// Which argument lies outside of its parameter's type.
fn called<C: Checker>(
    alloc: Global,
    seen: &Seen,
    checker: &C,
    finding: &mut Finding,
    number: usize,
    node: Node,
) -> Result<(), NoMemory> {
    let at = point_of(alloc, seen, number)?;
    let callee = seen.decl_named(seen.text(node.name));
    let mut place = 0usize;
    for argument in seen.nodes.all() {
        if argument.parent != number || argument.role != Role::Argument {
            continue;
        }
        let ty = param_type(seen, callee, place);
        place = place.saturating_add(1);
        let is_within = match ty {
            Some(ty) => fits(alloc, seen, checker, &at, argument.span, seen.text(ty.span))?,
            None => false,
        };
        if is_within {
            continue;
        }
        let own = type_of(alloc, seen, checker, &at, argument.span)?;
        finding.span = argument.span;
        put_is(finding, seen, argument.span, &own)?;
        return match ty {
            Some(ty) => outside(
                alloc,
                seen,
                checker,
                finding,
                &at,
                argument.span,
                &own,
                ty,
                "the parameter's type",
            ),
            None => finding
                .message
                .text(", and that isn't what the method takes."),
        };
    }
    finding
        .message
        .text("An argument isn't within the type of its parameter.")
}

// The type of the callee's parameter with this number, from 0.
fn param_type(seen: &Seen, callee: Option<usize>, place: usize) -> Option<Node> {
    let callee = callee?;
    let mut passed = 0usize;
    let mut number = 0usize;
    for node in seen.nodes.all() {
        if node.parent == callee && node.class == Class::Param {
            if passed == place {
                return seen.child(number, Role::Type);
            }
            passed = passed.saturating_add(1);
        }
        number = number.saturating_add(1);
    }
    None
}

// Whether a value may come into a variable of a type.
fn fits<C: Checker>(
    alloc: Global,
    seen: &Seen,
    checker: &C,
    at: &Point,
    value: Span,
    ty: &[u8],
) -> Result<bool, NoMemory> {
    let spot = match at.spot {
        Some(spot) => spot,
        None => return Ok(false),
    };
    let mut lines = copied(alloc, at.lines.as_slice())?;
    let mut line = Page::new(alloc);
    line.bytes(ty)?;
    line.text(" value__ = (")?;
    line.bytes(seen.text(value))?;
    line.text(")")?;
    lines.push(line)?;
    is_taken(alloc, seen, checker, spot, lines.as_slice())
}

// ---- NotArray, NoField

// What stands before the `[`, the `.` or behind the `|`, and the node of which it is a part.
fn whole_of(seen: &Seen, at: u32) -> Option<(usize, Span)> {
    let number = node_there(seen, at, Wanted::Part)?;
    let node = seen.nodes.get(number)?;
    if node.role == Role::Step {
        let stmt = seen.nodes.get(node.parent)?;
        return Some((
            number,
            Span {
                from: stmt.at,
                to: node.at,
            },
        ));
    }
    let role = if node.class == Class::Len {
        Role::Operand
    } else {
        Role::Left
    };
    let whole = seen.child(number, role)?;
    Some((number, whole.span))
}

fn not_part<C: Checker>(
    alloc: Global,
    seen: &Seen,
    checker: &C,
    finding: &mut Finding,
    needed: &str,
) -> Result<(), NoMemory> {
    let (number, whole) = match whole_of(seen, finding.at) {
        Some(found) => found,
        None => return finding.message.text(needed),
    };
    finding.span = match seen.nodes.get(number) {
        Some(node) => Span {
            from: whole.from.min(node.span.from),
            to: node.span.to.max(whole.to),
        },
        None => whole,
    };
    let at = point_of(alloc, seen, number)?;
    let ty = type_of(alloc, seen, checker, &at, whole)?;
    put_is(finding, seen, whole, &ty)?;
    finding.message.text(", and ")?;
    finding.message.text(needed)?;
    finding.message.text(".")?;
    narrowed(alloc, seen, finding, whole, &ty)
}

fn no_field<C: Checker>(
    alloc: Global,
    seen: &Seen,
    checker: &C,
    finding: &mut Finding,
) -> Result<(), NoMemory> {
    let (number, whole) = match whole_of(seen, finding.at) {
        Some(found) => found,
        None => return Ok(()),
    };
    let name = match seen.nodes.get(number) {
        Some(node) => node.name,
        None => whole,
    };
    finding.span = Span {
        from: whole.from,
        to: name.to,
    };
    let at = point_of(alloc, seen, number)?;
    let ty = type_of(alloc, seen, checker, &at, whole)?;
    put_is(finding, seen, whole, &ty)?;
    finding
        .message
        .text(", and not each of its values is a record with a field ")?;
    finding.message.code(seen.text(name))?;
    finding.message.text(".")?;
    narrowed(alloc, seen, finding, whole, &ty)
}

fn is_wordly(text: &[u8]) -> bool {
    for byte in text {
        if !byte.is_ascii_alphanumeric() && *byte != b'_' {
            return false;
        }
    }
    true
}

// A hint on narrowing, where the type is a union.
fn narrowed(
    alloc: Global,
    seen: &Seen,
    finding: &mut Finding,
    whole: Span,
    ty: &Option<Page>,
) -> Result<(), NoMemory> {
    let is_union = match ty {
        Some(ty) => ty.as_slice().contains(&b'|'),
        None => false,
    };
    if !is_union {
        return Ok(());
    }
    let is_variable = is_wordly(seen.text(whole));
    let mut page = Page::new(alloc);
    if is_variable {
        page.text("test the variable before, as in `if ")?;
        page.bytes(seen.text(whole))?;
        page.text(" is T:` with one member of the union for T")?;
    } else {
        page.text("only a variable is narrowed by `is`: put it into one, `T v = ")?;
        page.bytes(seen.text(whole))?;
        page.text("`, and test that")?;
    }
    finding.hint.push(page)?;
    Ok(())
}

// ---- NotBool, NotInt

// Tells the first of these parts whose type isn't the one that is needed; whether there is one.
fn told_part<C: Checker>(
    alloc: Global,
    seen: &Seen,
    checker: &C,
    finding: &mut Finding,
    part: usize,
    needed: &str,
) -> Result<bool, NoMemory> {
    let node = match seen.nodes.get(part) {
        Some(node) => node,
        None => return Ok(false),
    };
    let at = point_of(alloc, seen, part)?;
    let ty = match type_of(alloc, seen, checker, &at, node.span)? {
        Some(ty) => ty,
        None => return Ok(false),
    };
    if ty.as_slice() == needed.as_bytes() {
        return Ok(false);
    }
    finding.span = node.span;
    finding.message.code(seen.text(node.span))?;
    finding.message.text(" is of type ")?;
    finding.message.code(ty.as_slice())?;
    finding.message.text(", and ")?;
    finding.message.code(needed.as_bytes())?;
    finding.message.text(" is needed here.")?;
    narrowed(alloc, seen, finding, node.span, &Some(ty))?;
    Ok(true)
}

// Tells the first part of the node whose type isn't the one that is needed.
fn told_parts<C: Checker>(
    alloc: Global,
    seen: &Seen,
    checker: &C,
    finding: &mut Finding,
    number: usize,
    needed: &str,
) -> Result<bool, NoMemory> {
    let mut part = 0usize;
    for node in seen.nodes.all() {
        if node.parent == number && is_asked(node.role) && node.class.is_expr() {
            if told_part(alloc, seen, checker, finding, part, needed)? {
                return Ok(true);
            }
        }
        part = part.saturating_add(1);
    }
    Ok(false)
}

fn is_asked(role: Role) -> bool {
    match role {
        Role::Test
        | Role::Left
        | Role::Right
        | Role::Operand
        | Role::Body
        | Role::From
        | Role::To
        | Role::Value => true,
        _ => false,
    }
}

fn not_bool<C: Checker>(
    alloc: Global,
    seen: &Seen,
    checker: &C,
    finding: &mut Finding,
) -> Result<(), NoMemory> {
    let is_told = match node_there(seen, finding.at, Wanted::Stmt) {
        Some(number) => told_parts(alloc, seen, checker, finding, number, "bool")?,
        None => false,
    };
    if is_told {
        return Ok(());
    }
    match node_there(seen, finding.at, Wanted::Expr) {
        Some(number) => {
            if told_part(alloc, seen, checker, finding, number, "bool")? {
                return Ok(());
            }
            if told_parts(alloc, seen, checker, finding, number, "bool")? {
                return Ok(());
            }
        }
        None => {}
    }
    finding.message.text(
        "A truth value is needed here: a test, a clause, or an operand of `!`, `&&`, `||` or `==>`.",
    )
}

fn not_int<C: Checker>(
    alloc: Global,
    seen: &Seen,
    checker: &C,
    finding: &mut Finding,
) -> Result<(), NoMemory> {
    match node_there(seen, finding.at, Wanted::Either) {
        Some(number) => {
            let node = seen.nodes.get(number);
            let is_index = match node {
                Some(node) => node.class == Class::Index || node.class == Class::Repeat,
                None => false,
            };
            let is_told = if is_index {
                match seen.child_number(number, Role::Right) {
                    Some(part) => told_part(alloc, seen, checker, finding, part, "int")?,
                    None => false,
                }
            } else {
                told_parts(alloc, seen, checker, finding, number, "int")?
                    || told_ranges(alloc, seen, checker, finding, number)?
            };
            if is_told {
                return Ok(());
            }
        }
        None => {}
    }
    finding.message.text(
        "A number is needed here: an operand of arithmetic or of `<`, an index, a count, or a bound.",
    )?;
    hint(alloc, finding, "`==` and `is` compare other values")
}

// The bounds of a quantifier.
fn told_ranges<C: Checker>(
    alloc: Global,
    seen: &Seen,
    checker: &C,
    finding: &mut Finding,
    number: usize,
) -> Result<bool, NoMemory> {
    let mut range = 0usize;
    for node in seen.nodes.all() {
        if node.parent == number && node.class == Class::Range {
            if told_parts(alloc, seen, checker, finding, range, "int")? {
                return Ok(true);
            }
        }
        range = range.saturating_add(1);
    }
    Ok(false)
}
