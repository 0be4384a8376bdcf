//! The kinds of conditions in words.
use crate::places::{Wanted, node_there};
use wy_explain_source::{NoMemory, Node, Page, Role, Seen, Span};
use wy_term::{CondKind, Node as Term, Terms};

/// What is said of a condition that isn't shown: which construct owes what.
pub fn put_kind(
    page: &mut Page,
    seen: &Seen,
    kind: CondKind,
    node: Option<usize>,
    terms: &Terms,
    goal: u32,
) -> Result<(), NoMemory> {
    let is_low = is_lower_bound(terms, goal);
    match kind {
        CondKind::Range => page.text(if is_low {
            "The result may lie below -2^95, the least `int`."
        } else {
            "The result may lie above 2^95 - 1, the greatest `int`."
        }),
        CondKind::Divisor => {
            page.text("The divisor ")?;
            page.code(part_text(seen, node, Role::Right))?;
            page.text(" may be 0.")
        }
        CondKind::Index => {
            page.text("The index ")?;
            page.code(part_text(seen, node, Role::Right))?;
            page.text(if is_low {
                " may be below 0."
            } else {
                " may lie behind the last element."
            })
        }
        CondKind::Length => {
            page.text("The length ")?;
            page.code(part_text(seen, node, Role::Right))?;
            page.text(if is_low {
                " may be below 0."
            } else {
                " may be above 2^63 - 1."
            })
        }
        CondKind::Member => page.text(
            "The value may not meet the clauses of the type that it has to be of.",
        ),
        CondKind::Requires => page.text(
            "This call may not meet what is required of its arguments.",
        ),
        CondKind::Ensures => page.text("Where the body ends here, what is promised may fail."),
        CondKind::Entry => page.text("Where this loop begins, an invariant of it may fail."),
        CondKind::Keep => page.text("Where a turn of this loop ends, an invariant of it may fail."),
        CondKind::Assert => page.text("What is asserted may fail."),
        CondKind::Fail => page.text("This `fail` may be reached."),
    }
}

// The text of a part of a node.
fn part_text<'a>(seen: &Seen<'a>, node: Option<usize>, role: Role) -> &'a [u8] {
    match node {
        Some(node) => match seen.child(node, role) {
            Some(part) => seen.text(part.span),
            None => b"it".as_slice(),
        },
        None => b"it".as_slice(),
    }
}

/// Whether the goal is a lower bound: a number is at most the term.
pub fn is_lower_bound(terms: &Terms, goal: u32) -> bool {
    if goal as usize >= terms.len() {
        return false;
    }
    match terms.node(goal) {
        Term::AtMost(s, _) => {
            let s = *s;
            if s as usize >= terms.len() {
                return false;
            }
            matches!(terms.node(s), Term::Number(_))
        }
        _ => false,
    }
}

/// What is said of the clause that is owed, before its line.
pub fn clause_words(kind: CondKind) -> &'static str {
    match kind {
        CondKind::Ensures => "This is promised of the result:",
        CondKind::Requires => "This is required of the arguments:",
        CondKind::Entry => "This invariant is owed, of the values before the first turn:",
        CondKind::Keep => "This invariant is owed, of the values behind the turn:",
        _ => "This is owed:",
    }
}

/// The node that stands at a condition's place.
pub fn owing_node(seen: &Seen, kind: CondKind, at: u32) -> Option<usize> {
    match kind {
        CondKind::Range | CondKind::Divisor | CondKind::Index | CondKind::Length => {
            node_there(seen, at, Wanted::Expr)
        }
        CondKind::Requires | CondKind::Member => { node_there(seen, at, Wanted::Caller) }
        _ => { node_there(seen, at, Wanted::Owner) }
    }
}

/// The stretch that a condition's carets stand under: that of an index begins at its array.
pub fn owing_span(seen: &Seen, node: Option<usize>, at: u32) -> Span {
    let found: Option<Node> = match node {
        Some(number) => seen.nodes.get(number),
        None => None,
    };
    match found {
        Some(node) => node.span,
        None => seen.mark_at(at),
    }
}
