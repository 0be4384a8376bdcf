//! Faults of names, calls and sizes.
use crate::circles::{circle_of, put_circle};
use crate::nearest::nearest;
use crate::{Class, Finding, NoMemory, Node, Page, Role, Seen, Span, hint, point, point_at};
use std::alloc::Global;

/// What is told of a fault of names at this place.
pub fn name_fault(
    alloc: Global,
    seen: &Seen,
    word: &'static str,
    at: u32,
) -> Result<Finding, NoMemory> {
    let mut finding = Finding::new(alloc, word, at, seen.mark_at(at));
    match word {
        "Unknown" => unknown(alloc, seen, &mut finding)?,
        "Twice" => twice(alloc, seen, &mut finding)?,
        "BareRecursion" => bare_recursion(alloc, seen, &mut finding)?,
        "PropertyLoop" => property_loop(alloc, seen, &mut finding)?,
        "CallInContract" => call_in_contract(alloc, seen, &mut finding)?,
        "MethodInFunction" => method_in_function(alloc, seen, &mut finding)?,
        "Arity" => arity(alloc, seen, &mut finding)?,
        "OutsideLoop" => outside_loop(seen, &mut finding)?,
        _ => too_large(seen, &mut finding)?,
    }
    Ok(finding)
}

// What a declared name is, in words.
fn kind_of(class: Class) -> &'static str {
    match class {
        Class::Alias => "type",
        Class::Function => "function",
        Class::Method => "method",
        Class::Property => "property",
        Class::Param => "parameter",
        Class::Output => "result",
        _ => "variable",
    }
}

// Which names there may be at the use.
fn sought(seen: &Seen, at: u32) -> &'static str {
    let is_meant = |class: Class| class == Class::NamedType
        || class == Class::Call
        || class == Class::CallStmt
        || class == Class::Var;
    match seen.nodes.find(at, is_meant) {
        Some(number) => match seen.nodes.get(number) {
            Some(node) => match node.class {
                Class::NamedType => "type",
                Class::Call | Class::CallStmt => "function, method or property",
                _ => "variable",
            },
            None => "name",
        },
        None => "name",
    }
}

fn unknown(alloc: Global, seen: &Seen, finding: &mut Finding) -> Result<(), NoMemory> {
    let name = seen.text(finding.span);
    let decl = seen.decl_at(finding.at).unwrap_or(0);
    finding.message.text("No ")?;
    finding.message.text(sought(seen, finding.at))?;
    finding.message.text(" of the name ")?;
    finding.message.code(name)?;
    finding.message.text(" is declared here.")?;
    match nearest(alloc, seen, decl, name)? {
        Some(number) => match seen.nodes.get(number) {
            Some(node) => near(alloc, seen, finding, node, name),
            None => Ok(()),
        },
        None => put_scope(seen, finding, decl),
    }
}

// The nearest name, or the same one out of its block.
fn near(
    alloc: Global,
    seen: &Seen,
    finding: &mut Finding,
    node: Node,
    name: &[u8],
) -> Result<(), NoMemory> {
    let other = seen.text(node.name);
    let mut page = Page::new(alloc);
    if other == name {
        page.text(
            "One is declared in another place, whose block ends before this one, or where it comes later:",
        )?;
        return point(finding, page, node.name);
    }
    page.text("The nearest one is the ")?;
    page.text(kind_of(node.class))?;
    page.text(" ")?;
    page.code(other)?;
    page.text(":")?;
    point(finding, page, node.name)
}

// The names of the declaration, the first few.
fn put_scope(seen: &Seen, finding: &mut Finding, decl: usize) -> Result<(), NoMemory> {
    let mut told = 0usize;
    for node in seen.nodes.all() {
        let is_variable = node.class.declares()
            && !node.class.is_decl()
            && node.class != Class::Output;
        let is_near = is_variable && node.decl == decl;
        if !is_near || told >= 8 {
            continue;
        }
        finding
            .message
            .text(if told == 0 { " Known here: " } else { ", " })?;
        finding.message.code(seen.text(node.name))?;
        told = told.saturating_add(1);
    }
    if told > 0 {
        finding.message.text(".")?;
    }
    Ok(())
}

// Whether the node gives a name that no other may have beside it.
fn gives_name(class: Class) -> bool {
    class.declares() || class == Class::FieldType || class == Class::RecordField
}

// Whether two nodes give one name where that is refused.
fn collide(seen: &Seen, first: Node, second: Node) -> bool {
    if seen.text(first.name) != seen.text(second.name) {
        return false;
    }
    let is_field = first.class == Class::FieldType || first.class == Class::RecordField;
    if is_field || second.class == Class::FieldType || second.class == Class::RecordField {
        return first.class == second.class && first.parent == second.parent;
    }
    first.class.is_decl() || second.class.is_decl() || first.decl == second.decl
}

fn twice(alloc: Global, seen: &Seen, finding: &mut Finding) -> Result<(), NoMemory> {
    for node in seen.nodes.all() {
        if node.at != finding.at || !gives_name(node.class) {
            continue;
        }
        for other in seen.nodes.all() {
            if gives_name(other.class) && other.name != node.name && collide(seen, *other, *node) {
                finding.span = node.name;
                return twice_told(alloc, seen, finding, *node, *other);
            }
        }
        let name = seen.text(node.name);
        if name == b"print".as_slice() || name == b"print_int".as_slice() {
            finding.span = node.name;
            finding.message.code(name)?;
            return finding
                .message
                .text(" is the name of a method that is built in.");
        }
    }
    finding
        .message
        .text("This name is declared already: nothing shadows another.")
}

fn twice_told(
    alloc: Global,
    seen: &Seen,
    finding: &mut Finding,
    node: Node,
    other: Node,
) -> Result<(), NoMemory> {
    finding.message.code(seen.text(node.name))?;
    if node.class == Class::FieldType || node.class == Class::RecordField {
        finding.message.text(" is a field of this record already.")?;
    } else {
        finding
            .message
            .text(" is declared already, and no name shadows another.")?;
    }
    let mut page = Page::new(alloc);
    page.text(if other.at < node.at {
        "It was declared here:"
    } else {
        "It is declared here too:"
    })?;
    point(finding, page, other.name)?;
    if node.class.is_decl() || node.class == Class::FieldType {
        return Ok(());
    }
    hint(
        alloc,
        finding,
        "take another name, or assign without a type, as `x = 1`, where the same variable is meant",
    )
}

fn bare_recursion(alloc: Global, seen: &Seen, finding: &mut Finding) -> Result<(), NoMemory> {
    let decl = seen.decl_at(finding.at).unwrap_or(0);
    let circle = circle_of(alloc, seen, decl, seen.text(finding.span), Class::NamedType)?;
    if circle.is_empty() {
        return finding.message.text(
            "A test in a clause of a type leads back to that type: a clause may not rest on the type that it is about.",
        );
    }
    finding.message.text("The type leads back to itself with no record and no array on the way: ")?;
    put_circle(seen, &mut finding.message, circle.as_slice())?;
    finding.message.text(". So it would have to be known before its values can be told.")?;
    hint(
        alloc,
        finding,
        "put a record or an array between, as in `type T is null | {T next}`",
    )
}

fn property_loop(alloc: Global, seen: &Seen, finding: &mut Finding) -> Result<(), NoMemory> {
    finding.message.text("A use of a property stands for its clauses, and those of ")?;
    finding.message.code(seen.text(finding.span))?;
    finding
        .message
        .text(" lead to the same property again, without end")?;
    let decl = seen.decl_at(finding.at).unwrap_or(0);
    let circle = circle_of(alloc, seen, decl, seen.text(finding.span), Class::Call)?;
    if !circle.is_empty() {
        finding.message.text(": ")?;
        put_circle(seen, &mut finding.message, circle.as_slice())?;
    }
    finding.message.text(".")?;
    hint(
        alloc,
        finding,
        "a property can't recurse; a quantifier says what holds for each number of a range, as `all { k in 0..n | ..}`",
    )
}

// Where the call stands: the word of its clause.
fn clause_word(seen: &Seen, at: u32) -> &'static str {
    let mut here = match seen.nodes.find(at, |class: Class| class.is_expr()) {
        Some(number) => number,
        None => return "contract",
    };
    for _ in 0..4096 {
        let node = match seen.nodes.get(here) {
            Some(node) => node,
            None => break,
        };
        match node.class {
            Class::Quant => return "quantifier",
            Class::Assert => return "assert",
            _ => {}
        }
        match node.role {
            Role::Requires => return "requires",
            Role::Ensures => return "ensures",
            Role::Where => return "where",
            _ => {}
        }
        here = node.parent;
    }
    "contract"
}

fn call_in_contract(alloc: Global, seen: &Seen, finding: &mut Finding) -> Result<(), NoMemory> {
    let name = seen.text(finding.span);
    finding.message.code(name)?;
    finding.message.text(" is called in `")?;
    finding.message.text(clause_word(seen, finding.at))?;
    finding.message.text(
        "`: contracts and quantifiers call no function and no method, only properties.",
    )?;
    match seen.decl_named(name) {
        Some(number) => match seen.nodes.get(number) {
            Some(node) => point_at(alloc, finding, "It is declared here:", node.span)?,
            None => {}
        },
        None => {}
    }
    hint(
        alloc,
        finding,
        "write a property, as `property small(int x) where x < 10`, or say in an `ensures` of the function what its",
    )?;
    hint(
        alloc,
        finding,
        "callers are to know, call it before into a variable, and name that",
    )
}

fn method_in_function(alloc: Global, seen: &Seen, finding: &mut Finding) -> Result<(), NoMemory> {
    let decl = seen.decl_at(finding.at).unwrap_or(0);
    let node = match seen.nodes.get(decl) {
        Some(node) => node,
        None => return Ok(()),
    };
    finding.message.code(seen.text(node.name))?;
    finding
        .message
        .text(" is a function and calls the method ")?;
    finding.message.code(seen.text(finding.span))?;
    finding.message.text(": a function has no effects.")?;
    let mut page = Page::new(alloc);
    page.text("make it a method: `method ")?;
    page.bytes(seen.text(Span {
        from: node.name.from,
        to: node.span.to,
    }))?;
    page.text(":`")?;
    finding.hint.push(page)?;
    Ok(())
}

fn arity(alloc: Global, seen: &Seen, finding: &mut Finding) -> Result<(), NoMemory> {
    let is_meant = |class: Class| class == Class::Call
        || class == Class::CallStmt
        || class == Class::Return;
    let number = match seen.nodes.find(finding.at, is_meant) {
        Some(number) => number,
        None => return Ok(()),
    };
    let node = match seen.nodes.get(number) {
        Some(node) => node,
        None => return Ok(()),
    };
    finding.span = node.span;
    if node.class == Class::Return {
        return arity_of_return(alloc, seen, finding, number);
    }
    let given = seen.count_role(number, Role::Argument);
    let name = seen.text(node.name);
    let decl = match seen.decl_named(name) {
        Some(decl) => decl,
        None => return arity_of(finding, name, 1, given),
    };
    let taken = seen.count(decl, Class::Param);
    if taken == given {
        finding.message.code(name)?;
        finding.message.text(
            " gives no value back, so its call is a statement and no part of an expression.",
        )?;
    } else {
        arity_of(finding, name, taken, given)?;
    }
    match seen.nodes.get(decl) {
        Some(declared) => point_at(alloc, finding, "It is declared here:", declared.span),
        None => Ok(()),
    }
}

fn arity_of(finding: &mut Finding, name: &[u8], taken: u64, given: u64) -> Result<(), NoMemory> {
    finding.message.code(name)?;
    finding.message.text(" takes ")?;
    finding.message.number(taken)?;
    finding.message.text(if taken == 1 {
        " argument, and "
    } else {
        " arguments, and "
    })?;
    finding.message.number(given)?;
    finding.message.text(if given == 1 {
        " is given."
    } else {
        " are given."
    })
}

fn arity_of_return(
    alloc: Global,
    seen: &Seen,
    finding: &mut Finding,
    number: usize,
) -> Result<(), NoMemory> {
    let decl = seen.decl_at(finding.at).unwrap_or(0);
    let node = match seen.nodes.get(decl) {
        Some(node) => node,
        None => return Ok(()),
    };
    finding.message.code(seen.text(node.name))?;
    match seen.child(number, Role::Value) {
        Some(_) => finding
            .message
            .text(" gives no value back, and this `return` has one.")?,
        None => {
            finding.message.text(" gives back a value of type ")?;
            match seen.result_type(decl) {
                Some(ty) => finding.message.code(seen.text(ty.span))?,
                None => {}
            }
            finding.message.text(", and this `return` has none.")?;
        }
    }
    point_at(alloc, finding, "It is declared here:", node.span)
}

fn outside_loop(seen: &Seen, finding: &mut Finding) -> Result<(), NoMemory> {
    finding.message.code(seen.text(finding.span))?;
    finding.message.text(
        " stands in no loop. It leaves or repeats the innermost `while`, `do` or `for` around it; a `switch` is none.",
    )
}

fn too_large(seen: &Seen, finding: &mut Finding) -> Result<(), NoMemory> {
    match seen.nodes.find(finding.at, |class: Class| class.is_expr()) {
        Some(number) => match seen.nodes.get(number) {
            Some(node) => finding.span = node.span,
            None => {}
        },
        None => {}
    }
    finding.message.text(
        "With its properties written out, this expression has more than 4,096 nodes or a height above 400. Let properties use one another less often, or say the parts in clauses of their own.",
    )
}
