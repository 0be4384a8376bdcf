//! How programs are mended whose conditions the search leaves open: docs/WRITING.md has each of these texts in its table.
use crate::kinds::is_lower_bound;
use crate::parts::{made_of, made_of_all, node_at, node_of};
use crate::places::{Wanted, node_there};
use std::alloc::Global;
use wy_explain_source::{Class, Finding, NoMemory, Role, Seen, Span, hint};
use wy_term::{Cond, CondKind, Node, Terms};

/// The hints, in the order of the table, each by its lines.
pub const HINTS: [&str; 15] = [
    "update a part in a variable of its own: not `s.items[i] = x` but `int[] items = s.items`, `items[i] = x`,\nand then a new record of all fields, as `return {items: items, size: s.size + 1}`",
    "give the branch that updates an end of its own, so that nothing has to be joined: `i = i + 1` and `continue` in it;\nunder a `switch` a `return` in each case. Two loops, one behind the other, do as well",
    "say an equation with a truth value in two clauses: not `ensures r == F` but `ensures r ==> F` and `ensures !r ==> G`,\nwhere G denies F",
    "write the first turn of a `do` out before the loop, and use `while`",
    "say what callers need of a result field by field: not `ensures r == {x: a, y: b}` but `ensures r.x == a` and\n`ensures r.y == b`",
    "update a row in a variable of its own: `int[] row = m[i]`, `row[j] = v`, `assert row[j] == v`, `m[i] = row`,\n`assert m[i] == row`",
    "say what a new array holds before its first update: `assert all { k in 0..n | a[k] == e }` behind `a = [e; n]`",
    "bound both factors by numbers just before the product, as `assert f <= 1000000000`, and write constants outside:\n`c * (a * b)`",
    "test what a quotient by a variable comes to, as `if q <= 100:`, since its bound isn't found",
    "put tests of remainders into an order in which none has to follow from another, as `% 400` before `% 4`;\ntake the digits of a number off one by one",
    "say bounds before sums, in a clause of their own: `r <= |s| - |t|` and not `r + |t| <= |s|`; the lengths of rows before\ntheir elements; before `[e; n]` that `n <= 9223372036854775807`",
    "test the bare shape: `s is {int radius}` and not a type whose fields have clauses, which narrows only where it is true",
    "a `where` speaks of the values now. For the value at entry copy it before the loop, `int n = x`, and name that",
    "let branches end by themselves (`return`, `continue`) so that nothing is joined behind them; say what matters in an `assert`\nbefore; put a part of the body into a function of its own, of which its `ensures` alone is known",
    "a limit of the arithmetic was met: bound each variable by numbers in an `assert` just before, and divide the clause into\nclauses of fewer variables",
];

/// The number of the hint for a budget that is spent, and of that for a limit of the arithmetic.
pub const OF_SPENT: usize = 13;

pub const OF_LIMIT: usize = 14;

/// Puts a hint, line by line.
pub fn put_lines(alloc: Global, finding: &mut Finding, number: usize) -> Result<(), NoMemory> {
    if number < HINTS.len() {
        for line in HINTS[number].split('\n') {
            hint(alloc, finding, line)?;
        }
    }
    Ok(())
}

/// What the terms of a case have.
#[derive(Clone, Copy)]
struct Traits {
    field_update: bool,
    element_update: bool,
    nested_update: bool,
    product: bool,
    quotient: bool,
    remainder: bool,
    repeat: bool,
    nested_get: bool,
    nested_field: bool,
    record_equation: bool,
}

/// The number of the hint that fits the condition, if one does.
pub fn hint_for(
    alloc: Global,
    seen: &Seen,
    terms: &Terms,
    cond: &Cond,
    clause: Option<u32>,
    decl: usize,
) -> Result<Option<usize>, NoMemory> {
    let traits = traits_of(alloc, terms, cond)?;
    let own = clause_class(seen, clause);
    if traits.product && (cond.kind == CondKind::Range || own == Some(Class::Arithmetic)) {
        return Ok(Some(7));
    }
    if cond.kind == CondKind::Ensures && is_truth_equation(seen, clause, decl) {
        return Ok(Some(2));
    }
    if cond.kind == CondKind::Ensures && is_record_equation(seen, clause) {
        return Ok(Some(4));
    }
    if traits.nested_field || (traits.field_update && traits.element_update) {
        return Ok(Some(0));
    }
    if traits.nested_update && traits.nested_get {
        return Ok(Some(5));
    }
    if is_kept(cond.kind) && has_class(seen, decl, Class::Do) {
        return Ok(Some(3));
    }
    if cond.kind == CondKind::Keep && speaks_of_entry(seen, clause, decl) {
        return Ok(Some(12));
    }
    if traits.element_update && has_update_under_choice(seen, decl) {
        return Ok(Some(1));
    }
    if traits.element_update && traits.repeat {
        return Ok(Some(6));
    }
    let is_bound = cond.kind == CondKind::Length
        || (cond.kind == CondKind::Index && is_in_contract(seen, cond.at));
    if is_bound && !is_lower_bound(terms, cond.goal) {
        return Ok(Some(10));
    }
    Ok(last_hints(traits))
}

fn last_hints(traits: Traits) -> Option<usize> {
    if traits.product {
        return Some(7);
    }
    if traits.quotient {
        return Some(8);
    }
    if traits.remainder {
        return Some(9);
    }
    if traits.record_equation {
        return Some(4);
    }
    None
}

fn is_kept(kind: CondKind) -> bool {
    kind == CondKind::Keep || kind == CondKind::Entry
}

// What the goal and the hypotheses have.
fn traits_of(alloc: Global, terms: &Terms, cond: &Cond) -> Result<Traits, NoMemory> {
    let mut traits = Traits {
        field_update: false,
        element_update: false,
        nested_update: false,
        product: false,
        quotient: false,
        remainder: false,
        repeat: false,
        nested_get: false,
        nested_field: false,
        record_equation: false,
    };
    let marks = made_of(alloc, terms, cond.goal)?;
    note_all(terms, marks.as_slice(), &mut traits);
    let in_goal = traits;
    let marks = made_of_all(alloc, terms, cond.hyps.as_slice())?;
    note_all(terms, marks.as_slice(), &mut traits);
    traits.product = in_goal.product;
    traits.quotient = in_goal.quotient;
    traits.remainder = in_goal.remainder;
    Ok(traits)
}

fn note_all(terms: &Terms, marks: &[bool], traits: &mut Traits) {
    for number in 0..marks.len() {
        if marks[number] {
            match node_at(terms, number) {
                Some(node) => note(terms, node, traits),
                None => {}
            }
        }
    }
}

fn note(terms: &Terms, node: &Node, traits: &mut Traits) {
    match node {
        Node::SetField(_, _, value) => {
            traits.field_update = true;
            if matches!(node_of(terms, *value), Some(Node::SetField(_, _, _))) {
                traits.nested_field = true;
            }
        }
        Node::Equal(v, w) => {
            if is_record(terms, *v) || is_record(terms, *w) {
                traits.record_equation = true;
            }
        }
        Node::Update(_, _, value) => {
            traits.element_update = true;
            if is_update(terms, *value) {
                traits.nested_update = true;
            }
        }
        Node::Get(array, _) => {
            if matches!(node_of(terms, *array), Some(Node::Get(_, _))) {
                traits.nested_get = true;
            }
        }
        Node::Mul(s, t) => {
            if !is_number(terms, *s) && !is_number(terms, *t) {
                traits.product = true;
            }
        }
        Node::Div(_, t) => {
            if !is_number(terms, *t) {
                traits.quotient = true;
            }
        }
        Node::Mod(s, _) => {
            if !is_number(terms, *s) {
                traits.remainder = true;
            }
        }
        Node::Repeat(_, _) => traits.repeat = true,
        _ => {}
    }
}

fn is_update(terms: &Terms, term: u32) -> bool {
    matches!(node_of(terms, term), Some(Node::Update(_, _, _)))
}

fn is_record(terms: &Terms, term: u32) -> bool {
    matches!(node_of(terms, term), Some(Node::Record(_)))
}

fn is_number(terms: &Terms, term: u32) -> bool {
    matches!(node_of(terms, term), Some(Node::Number(_)))
}

fn clause_class(seen: &Seen, clause: Option<u32>) -> Option<Class> {
    let number = clause_node(seen, clause)?;
    match seen.nodes.get(number) {
        Some(node) => Some(node.class),
        None => None,
    }
}

fn clause_node(seen: &Seen, clause: Option<u32>) -> Option<usize> {
    let at = clause?;
    node_there(seen, at, Wanted::Expr)
}

// Whether the clause is `r == F` for a result that is a truth value.
fn is_truth_equation(seen: &Seen, clause: Option<u32>, decl: usize) -> bool {
    let number = match clause_node(seen, clause) {
        Some(number) => number,
        None => return false,
    };
    let is_equation = match seen.nodes.get(number) {
        Some(node) => node.class == Class::Equality,
        None => false,
    };
    let is_bool = match seen.result_type(decl) {
        Some(ty) => seen.text(ty.span) == b"bool".as_slice(),
        None => false,
    };
    is_equation && is_bool
}

// Whether the clause is an equation with a record.
fn is_record_equation(seen: &Seen, clause: Option<u32>) -> bool {
    let number = match clause_node(seen, clause) {
        Some(number) => number,
        None => return false,
    };
    for role in [Role::Left, Role::Right] {
        match seen.child(number, role) {
            Some(side) => {
                if side.class == Class::Record {
                    return true;
                }
            }
            None => {}
        }
    }
    false
}

// Whether the place is one of a contract.
fn is_in_contract(seen: &Seen, at: u32) -> bool {
    match node_there(seen, at, Wanted::Expr) {
        Some(number) => seen.stmt_of(number).is_none(),
        None => false,
    }
}

// Whether the clause speaks of a parameter that the body assigns.
fn speaks_of_entry(seen: &Seen, clause: Option<u32>, decl: usize) -> bool {
    let whole = match clause_node(seen, clause) {
        Some(number) => match seen.nodes.get(number) {
            Some(node) => node.span,
            None => return false,
        },
        None => return false,
    };
    for node in seen.nodes.all() {
        let is_assigned = node.class == Class::Assign && node.decl == decl;
        if is_assigned && is_spoken_of(seen, whole, decl, seen.text(node.name)) {
            return true;
        }
    }
    false
}

// Whether the name is one of a parameter, and stands in the stretch.
fn is_spoken_of(seen: &Seen, whole: Span, decl: usize, name: &[u8]) -> bool {
    let mut is_parameter = false;
    let mut is_there = false;
    for node in seen.nodes.all() {
        if seen.text(node.name) == name {
            is_parameter = is_parameter || (node.class == Class::Param && node.parent == decl);
            is_there = is_there || (node.class == Class::Var && whole.holds(node.at));
        }
    }
    is_parameter && is_there
}

fn has_class(seen: &Seen, decl: usize, class: Class) -> bool {
    for node in seen.nodes.all() {
        if node.decl == decl && node.class == class {
            return true;
        }
    }
    false
}

// Whether an element is updated under an `if` or a `switch`.
fn has_update_under_choice(seen: &Seen, decl: usize) -> bool {
    for node in seen.nodes.all() {
        if node.decl == decl
            && node.role == Role::Step
            && node.class == Class::Index
            && is_under_choice(seen, node.parent)
        {
            return true;
        }
    }
    false
}

fn is_under_choice(seen: &Seen, node: usize) -> bool {
    let mut here = node;
    for _ in 0..4096 {
        let now = match seen.nodes.get(here) {
            Some(now) => now,
            None => return false,
        };
        if now.class == Class::If || now.class == Class::Switch {
            return true;
        }
        here = now.parent;
    }
    false
}
