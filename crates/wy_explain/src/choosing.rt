//! Which facts of an open case are shown.
use crate::parts::{is_compound, is_name, made_of, node_at, node_of};
use std::alloc::Global;
use wy_explain_source::NoMemory;
use wy_term::{Kind, Node, Terms};

/// How many facts are looked at for showing.
const MOST: usize = 24;

/// A literal of an open case, and how near it is to the goal: 0 a part of the goal itself, 1 with a part, a length, a product or
/// the like of it, 2 with a name of it, 3 with something of those, 4 any other.
#[derive(Clone, Copy)]
pub struct Fact {
    pub atom: u32,
    pub holds: bool,
    pub distance: u8,
}

/// The facts of a case, the nearest first and those of one distance in the order of the case. Bounds of `int` and kinds are left
/// out; how many facts are left out or are far away is told beside.
pub fn chosen(
    alloc: Global,
    terms: &Terms,
    goal: u32,
    literals: &[(u32, bool)],
) -> Result<(Vec<Fact>, u64), NoMemory> {
    let aim = made_of(alloc, terms, goal)?;
    let mut facts: Vec<Fact> = Vec::new(alloc);
    for literal in literals {
        let own = made_of(alloc, terms, literal.0)?;
        let distance = distance(terms, aim.as_slice(), own.as_slice(), literal.0);
        let is_plain = literal.1 && are_plain(terms, own.as_slice());
        if is_plain || is_implied(terms, *literal, literals) {
            continue;
        }
        facts.push(Fact {
            atom: literal.0,
            holds: literal.1,
            distance,
        })?;
    }
    bring_near(alloc, terms, facts.as_mut_slice())?;
    let mut shown: Vec<Fact> = Vec::new(alloc);
    let last = if has_name(terms, aim.as_slice()) {
        3
    } else {
        4
    };
    for distance in 0..5u8 {
        for fact in facts.as_slice() {
            let is_near = fact.distance == distance && distance <= last;
            if is_near && shown.len() < MOST && denies(terms, goal, *fact) {
                shown.push(*fact)?;
            }
        }
        for fact in facts.as_slice() {
            let is_near = fact.distance == distance && distance <= last;
            if is_near && shown.len() < MOST && !denies(terms, goal, *fact) {
                shown.push(*fact)?;
            }
        }
    }
    let hidden = literals.len().saturating_sub(shown.len());
    Ok((shown, hidden as u64))
}

/// All facts of a case in its order.
pub fn all_facts(alloc: Global, literals: &[(u32, bool)]) -> Result<Vec<Fact>, NoMemory> {
    let mut facts: Vec<Fact> = Vec::new(alloc);
    for literal in literals {
        facts.push(Fact {
            atom: literal.0,
            holds: literal.1,
            distance: 0,
        })?;
    }
    Ok(facts)
}

// Facts that share a name or a part with one at distance 2 at most are at distance 3.
fn bring_near(alloc: Global, terms: &Terms, facts: &mut [Fact]) -> Result<(), NoMemory> {
    let mut near: Vec<bool> = vec![in alloc; false; terms.len()]?;
    for number in 0..facts.len() {
        let fact = facts[number];
        if fact.distance <= 2 {
            let own = made_of(alloc, terms, fact.atom)?;
            join(near.as_mut_slice(), own.as_slice());
        }
    }
    for number in 0..facts.len() {
        let mut fact = facts[number];
        if fact.distance > 3 {
            let own = made_of(alloc, terms, fact.atom)?;
            if share(terms, near.as_slice(), own.as_slice(), false) {
                fact.distance = 3;
                facts[number] = fact;
            }
        }
    }
    Ok(())
}

/// Puts marks on the terms that have one in either list.
pub fn join(into: &mut [bool], marks: &[bool]) {
    for number in 0..into.len() {
        if is_marked(marks, number) {
            into[number] = true;
        }
    }
}

// Whether a name, or else more than a name, has marks of both kinds.
fn share(terms: &Terms, first: &[bool], second: &[bool], is_more: bool) -> bool {
    for number in 0..first.len() {
        let is_both = first[number] && is_marked(second, number);
        if is_both {
            match node_at(terms, number) {
                Some(node) => {
                    if (is_more && is_compound(node)) || (!is_more && is_name(node)) {
                        return true;
                    }
                }
                None => {}
            }
        }
    }
    false
}

// Whether the term with this number has a mark.
fn is_marked(marks: &[bool], number: usize) -> bool {
    match marks.get(number) {
        Some(mark) => *mark,
        None => false,
    }
}

fn distance(terms: &Terms, aim: &[bool], own: &[bool], atom: u32) -> u8 {
    if is_marked(aim, atom as usize) {
        return 0;
    }
    if share(terms, aim, own, true) {
        return 1;
    }
    if share(terms, aim, own, false) {
        return 2;
    }
    4
}

// Whether something has a name.
fn has_name(terms: &Terms, marks: &[bool]) -> bool {
    share(terms, marks, marks, false)
}

// Whether a fact denies the goal or a part of it.
fn denies(terms: &Terms, goal: u32, fact: Fact) -> bool {
    match node_of(terms, goal) {
        Some(Node::Not(inner)) => fact.holds && *inner == fact.atom,
        Some(Node::And(parts) | Node::Or(parts)) => denies_one(terms, parts.as_slice(), fact),
        _ => !fact.holds && fact.atom == goal,
    }
}

fn denies_one(terms: &Terms, parts: &[u32], fact: Fact) -> bool {
    for part in parts {
        if denies_part(terms, *part, fact) {
            return true;
        }
    }
    false
}

fn denies_part(terms: &Terms, part: u32, fact: Fact) -> bool {
    match node_of(terms, part) {
        Some(Node::Not(inner)) => fact.holds && *inner == fact.atom,
        _ => !fact.holds && fact.atom == part,
    }
}

/// Whether a formula says kinds and bounds of `int` alone.
pub fn is_plain_whole(alloc: Global, terms: &Terms, formula: u32) -> Result<bool, NoMemory> {
    let marks = made_of(alloc, terms, formula)?;
    Ok(are_plain(terms, marks.as_slice()))
}

// Whether what is marked says kinds and ends of ranges alone: there is some, and nothing else is said.
fn are_plain(terms: &Terms, marks: &[bool]) -> bool {
    let mut is_some = false;
    for number in 0..marks.len() {
        if !marks[number] {
            continue;
        }
        match node_at(terms, number) {
            Some(Node::Kind(_, Kind::Null)) => return false,
            Some(Node::Kind(_, _)) => is_some = true,
            Some(Node::AtMost(s, t)) => {
                if !is_end(terms, *s)
                    && !is_end(terms, *t)
                    && !(is_zero(terms, *s) && is_length(terms, *t))
                {
                    return false;
                }
                is_some = true;
            }
            Some(Node::Equal(_, _) | Node::In(_, _) | Node::Or(_) | Node::Not(_) | Node::Some(_)) =>
                return false,
            _ => {}
        }
    }
    is_some
}

// The term without what makes a number of a datum, or a datum of a number.
fn stripped(terms: &Terms, term: u32) -> u32 {
    match node_of(terms, term) {
        Some(Node::Num(inner) | Node::Int(inner)) => match node_of(terms, *inner) {
            Some(Node::Num(other) | Node::Int(other)) => *other,
            _ => *inner,
        },
        _ => term,
    }
}

// What an atom compares: the sides, and whether it is an equation.
fn compared(terms: &Terms, atom: u32) -> Option<(u32, u32, bool)> {
    match node_of(terms, atom) {
        Some(Node::AtMost(s, t)) => Some((stripped(terms, *s), stripped(terms, *t), false)),
        Some(Node::Equal(s, t)) => Some((stripped(terms, *s), stripped(terms, *t), true)),
        _ => None,
    }
}

// Whether another literal of the case says more of the same two terms.
fn is_implied(terms: &Terms, literal: (u32, bool), literals: &[(u32, bool)]) -> bool {
    let (s, t, is_equation) = match compared(terms, literal.0) {
        Some(sides) => sides,
        None => return false,
    };
    if s == t {
        return true;
    }
    for other in literals {
        match compared(terms, other.0) {
            Some(more) => {
                if says_more(
                    (s, t, is_equation, literal.1),
                    (more.0, more.1, more.2, other.1),
                ) {
                    return true;
                }
            }
            None => {}
        }
    }
    false
}

// Of two comparisons of two terms each: whether the second says more than the first.
fn says_more(less: (u32, u32, bool, bool), more: (u32, u32, bool, bool)) -> bool {
    let is_same = less.0 == more.0 && less.1 == more.1;
    let is_turned = less.0 == more.1 && less.1 == more.0;
    let is_at_most = !less.2 && less.3;
    let is_different = less.2 && !less.3;
    let is_equal = more.2 && more.3;
    let is_below = !more.2 && !more.3;
    (is_at_most && is_equal && (is_same || is_turned))
        || (is_at_most && is_below && is_turned)
        || (is_different && is_below && (is_same || is_turned))
}

fn is_end(terms: &Terms, term: u32) -> bool {
    match node_of(terms, term) {
        Some(Node::Number(number)) => {
            *number <= -39_614_081_257_132_168_796_771_975_168
                || *number >= 39_614_081_257_132_168_796_771_975_167
                || *number == 9_223_372_036_854_775_807
        }
        _ => false,
    }
}

fn is_zero(terms: &Terms, term: u32) -> bool {
    matches!(node_of(terms, term), Some(Node::Number(0)))
}

fn is_length(terms: &Terms, term: u32) -> bool {
    matches!(node_of(terms, term), Some(Node::Len(_)))
}
