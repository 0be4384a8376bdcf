//! Conditions that the search leaves open.
use crate::choosing::{Fact, all_facts, chosen, is_plain_whole, join};
use crate::clauses::clause_owed;
use crate::hints::{OF_LIMIT, hint_for, put_lines};
use crate::kinds::{clause_words, owing_node, owing_span, put_kind};
use crate::members::member_type;
use crate::naming::Naming;
use crate::parts::{is_equation, made_of, node_at, node_of};
use crate::places::{Wanted, node_there};
use crate::rewriting::rewritten;
use crate::term_text::{Words, put_formula};
use crate::uses::{Uses, place_of};
use std::alloc::Global;
use wy_core::Core;
use wy_explain_source::{Finding, NoMemory, Page, Seen, point_at};
use wy_term::{Cond, CondKind, Node, Terms};

/// The conditions of a program, and what is looked at to tell of them.
#[derive(Clone, Copy)]
pub struct Owed<'a, 'b> {
    pub seen: &'a Seen<'b>,
    pub core: &'a Core,
    pub terms: &'a Terms,
    pub conds: &'a [Cond],
}

/// A case that the search leaves open: its literals, in terms of their own, and how its search ended.
#[derive(Drop)]
pub struct OpenCase {
    pub ending: &'static str,
    pub terms: Terms,
    pub literals: Vec<(u32, bool)>,
}

/// What is told of the condition with this number in the list, from 0, whatever its search ended in: what owes it, and which
/// clause.
pub fn finding_of(
    alloc: Global,
    owed: &Owed,
    number: usize,
    cond: &Cond,
    ending: &'static str,
) -> Result<Finding, NoMemory> {
    let node = owing_node(owed.seen, cond.kind, cond.at);
    let span = owing_span(owed.seen, node, cond.at);
    let mut finding = Finding::new(alloc, cond.kind.word(), cond.at, span);
    finding.condition = (number as u64).saturating_add(1);
    finding.ending = ending;
    put_kind(
        &mut finding.message,
        owed.seen,
        cond.kind,
        node,
        owed.terms,
        cond.goal,
    )?;
    put_type_asked(alloc, &mut finding.message, owed, number, cond)?;
    let clause = clause_of(alloc, owed, number, cond)?;
    match clause {
        Some(at) => put_clause(alloc, owed.seen, &mut finding, cond.kind, at)?,
        None => {}
    }
    put_hint(alloc, owed, &mut finding, cond, clause)?;
    Ok(finding)
}

// The type that a value has to be of, where that is plain.
fn put_type_asked(
    alloc: Global,
    page: &mut Page,
    owed: &Owed,
    number: usize,
    cond: &Cond,
) -> Result<(), NoMemory> {
    if cond.kind != CondKind::Member {
        return Ok(());
    }
    match member_type(alloc, owed.seen, owed.conds, number)? {
        Some((ty, _)) => {
            page.text(" That type is ")?;
            page.code(owed.seen.text(ty.span))?;
            page.text(".")
        }
        None => Ok(()),
    }
}

// The place of the clause that is owed: of a contract, a loop or a type.
fn clause_of(
    alloc: Global,
    owed: &Owed,
    number: usize,
    cond: &Cond,
) -> Result<Option<u32>, NoMemory> {
    if cond.kind == CondKind::Member {
        return match member_type(alloc, owed.seen, owed.conds, number)? {
            Some((_, at)) => Ok(Some(at)),
            None => Ok(None),
        };
    }
    clause_owed(alloc, owed.seen, owed.core, owed.conds, number)
}

fn put_clause(
    alloc: Global,
    seen: &Seen,
    finding: &mut Finding,
    kind: CondKind,
    at: u32,
) -> Result<(), NoMemory> {
    let span = match node_there(seen, at, Wanted::Expr) {
        Some(number) => match seen.nodes.get(number) {
            Some(node) => node.span,
            None => return Ok(()),
        },
        None => return Ok(()),
    };
    let words = if kind == CondKind::Member {
        "Its first clause:"
    } else {
        clause_words(kind)
    };
    point_at(alloc, finding, words, span)
}

fn put_hint(
    alloc: Global,
    owed: &Owed,
    finding: &mut Finding,
    cond: &Cond,
    clause: Option<u32>,
) -> Result<(), NoMemory> {
    let decl = owed.seen.decl_at(cond.at).unwrap_or(0);
    match hint_for(alloc, owed.seen, owed.terms, cond, clause, decl)? {
        Some(number) => {
            put_lines(alloc, finding, number)?;
            match rewritten(alloc, owed.seen, number, cond.at, clause)? {
                Some(line) => finding.hint.push(line)?,
                None => {}
            }
            Ok(())
        }
        None => Ok(()),
    }
}

/// The same with its goal and the facts of the case that stays open.
pub fn open_finding(
    alloc: Global,
    owed: &Owed,
    number: usize,
    cond: &Cond,
    case: OpenCase,
    all: bool,
) -> Result<Finding, NoMemory> {
    let OpenCase {
        ending,
        mut terms,
        literals,
    } = case;
    let mut finding = finding_of(alloc, owed, number, cond, ending)?;
    if ending != "open still" && finding.hint.is_empty() {
        put_lines(alloc, &mut finding, OF_LIMIT)?;
    }
    if cond.goal as usize >= owed.terms.len() {
        return Ok(finding);
    }
    let goal = match terms.copy(owed.terms, cond.goal) {
        Ok(goal) => goal,
        Err(_) => return Err(NoMemory),
    };
    let (facts, hidden) = if all {
        (all_facts(alloc, literals.as_slice())?, 0)
    } else {
        chosen(alloc, &terms, goal, literals.as_slice())?
    };
    finding.hidden = hidden;
    let naming = naming_of(alloc, owed, &terms, goal, facts.as_slice(), cond)?;
    let words = Words {
        terms: &terms,
        core: owed.core,
        naming: &naming,
    };
    put_goal(alloc, &mut finding.goal, words, goal, all)?;
    for fact in facts.as_slice() {
        let mut page = Page::new(alloc);
        put_formula(&mut page, words, fact.atom, fact.holds)?;
        let says_nothing = page.as_slice().ends_with(b"| true }".as_slice());
        let is_new = !says_nothing && !is_among(finding.facts.as_slice(), page.as_slice());
        if all || (is_new && finding.facts.len() < MOST) {
            finding.facts.push(page)?;
        } else {
            finding.hidden = finding.hidden.saturating_add(1);
        }
    }
    finding.names = naming.notes(alloc)?;
    Ok(finding)
}

fn is_among(texts: &[Page], text: &[u8]) -> bool {
    for other in texts {
        if other.as_slice() == text {
            return true;
        }
    }
    false
}

/// How many facts are shown unless all are asked for.
const MOST: usize = 8;

// The goal; of several parts those that aren't kinds and bounds of `int`, unless all are asked for.
fn put_goal(
    alloc: Global,
    page: &mut Page,
    words: Words,
    goal: u32,
    all: bool,
) -> Result<(), NoMemory> {
    let parts = goal_parts(alloc, words.terms, goal)?;
    if all || parts.len() <= 1 {
        put_formula(page, words, goal, true)?;
        if page.as_slice() == b"false".as_slice() {
            page.text(" (so no case may come here)")?;
        }
        return Ok(());
    }
    let mut is_first = true;
    for part in parts.as_slice() {
        if is_plain_whole(alloc, words.terms, *part)? {
            continue;
        }
        page.text(if is_first { "" } else { " && " })?;
        put_formula(page, words, *part, true)?;
        is_first = false;
    }
    if page.is_empty() {
        put_formula(page, words, goal, true)?;
    }
    Ok(())
}

// The parts between the outermost `&&` of a goal, those within first ones too.
fn goal_parts(alloc: Global, terms: &Terms, goal: u32) -> Result<Vec<u32>, NoMemory> {
    let mut parts: Vec<u32> = Vec::new(alloc);
    let mut rest: Vec<u32> = Vec::new(alloc);
    rest.push(goal)?;
    for _ in 0..65_536 {
        let next = match rest.pop() {
            Some(next) => next,
            None => break,
        };
        match node_of(terms, next) {
            Some(Node::And(inner)) => {
                if is_equation(terms, inner.as_slice()) {
                    parts.push(next)?;
                } else {
                    let mut turned = Vec::from_slice(alloc, inner.as_slice())?;
                    turned.reverse();
                    rest.append(&mut turned)?;
                }
            }
            _ => parts.push(next)?,
        }
    }
    Ok(parts)
}

/// What the names in the goal and the facts are called.
pub fn naming_of(
    alloc: Global,
    owed: &Owed,
    terms: &Terms,
    goal: u32,
    facts: &[Fact],
    cond: &Cond,
) -> Result<Naming, NoMemory> {
    let mut marks = made_of(alloc, terms, goal)?;
    for fact in facts {
        let own = made_of(alloc, terms, fact.atom)?;
        join(marks.as_mut_slice(), own.as_slice());
    }
    let decl = owed.seen.decl_at(cond.at).unwrap_or(0);
    let uses = Uses::of(alloc, owed.seen, owed.terms, owed.conds, decl)?;
    let mut naming = Naming::new(alloc);
    for number in 0..marks.len() {
        if !marks[number] {
            continue;
        }
        match node_at(terms, number) {
            Some(Node::ValName(word, count)) => {
                let place = place_of(
                    owed.seen,
                    owed.terms,
                    owed.conds,
                    &uses,
                    word.as_bytes(),
                    *count,
                    cond.at,
                );
                naming.call(alloc, owed.seen, decl, word.as_bytes(), *count, place)?;
            }
            Some(Node::IntName(word, count)) => {
                let is_bound = is_bound(terms, marks.as_slice(), word.as_bytes(), *count);
                naming.call_number(alloc, word.as_bytes(), *count, is_bound)?;
            }
            _ => {}
        }
    }
    Ok(naming)
}

// Whether a quantifier among the marked terms binds the name.
fn is_bound(terms: &Terms, marks: &[bool], word: &[u8], number: u128) -> bool {
    for term in 0..marks.len() {
        if !marks[term] {
            continue;
        }
        match node_at(terms, term) {
            Some(Node::All(quantifier) | Node::Some(quantifier)) => {
                if quantifier.number == number && quantifier.word.as_bytes() == word {
                    return true;
                }
            }
            _ => {}
        }
    }
    false
}
