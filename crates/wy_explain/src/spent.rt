//! Conditions whose budget is spent.
use crate::choosing::Fact;
use crate::conditions::{Owed, naming_of};
use crate::hints::{OF_SPENT, put_lines};
use crate::parts::node_of;
use crate::term_text::{Words, put_formula};
use std::alloc::Global;
use wy_explain_source::{Class, Finding, Label, NoMemory, Page, Seen, point};
use wy_term::{Cond, Node, Terms};

/// What was counted of a search: in so many of its first cases it split so often, on these atoms, each with how often, in terms of
/// their own.
#[derive(Drop)]
pub struct Counted {
    pub cases: u64,
    pub splits: u64,
    pub terms: Terms,
    pub atoms: Vec<(u32, u64)>,
}

/// How many atoms and how many constructs are told.
const MOST: usize = 3;

/// Tells why a search may have so many cases: how many choices are known before the goal, on what it splits most, where that was counted,
/// and behind which constructs paths come together.
pub fn put_spent(
    alloc: Global,
    owed: &Owed,
    cond: &Cond,
    budget: u64,
    counted: Option<&Counted>,
    finding: &mut Finding,
) -> Result<(), NoMemory> {
    let mut alternatives = 0u64;
    for hyp in cond.hyps.as_slice() {
        match node_of(owed.terms, *hyp) {
            Some(Node::Or(_)) => alternatives = alternatives.saturating_add(1),
            _ => {}
        }
    }
    finding.message.text(" The search ends at its budget of ")?;
    finding.message.number(budget)?;
    finding.message.text(" cases. ")?;
    finding.message.number(alternatives)?;
    finding.message.text(" of the ")?;
    finding.message.number(cond.hyps.len() as u64)?;
    finding.message.text(
        " facts that are known here are choices, each of which may double the cases.",
    )?;
    match counted {
        Some(counted) => put_splits(alloc, owed, cond, counted, finding)?,
        None => {}
    }
    put_choices(alloc, owed.seen, cond.at, finding)?;
    if finding.hint.is_empty() {
        put_lines(alloc, finding, OF_SPENT)?;
    }
    Ok(())
}

// On which atoms the search splits most.
fn put_splits(
    alloc: Global,
    owed: &Owed,
    cond: &Cond,
    counted: &Counted,
    finding: &mut Finding,
) -> Result<(), NoMemory> {
    let mut text = Page::new(alloc);
    text.text("In its first ")?;
    text.number(counted.cases)?;
    text.text(" cases it splits ")?;
    text.number(counted.splits)?;
    text.text(" times, most often on these:")?;
    finding.labels.push(Label { text, span: None })?;
    let mut facts: Vec<Fact> = Vec::new(alloc);
    let mut counts: Vec<u64> = Vec::new(alloc);
    let mut below = u64::MAX;
    for _ in 0..MOST {
        below = most_below(counted.atoms.as_slice(), below);
        for pair in counted.atoms.as_slice() {
            if pair.1 == below && facts.len() < MOST {
                facts.push(Fact {
                    atom: pair.0,
                    holds: true,
                    distance: 0,
                })?;
                counts.push(below)?;
            }
        }
    }
    let goal = match facts.as_slice().first() {
        Some(fact) => fact.atom,
        None => return Ok(()),
    };
    let naming = naming_of(alloc, owed, &counted.terms, goal, facts.as_slice(), cond)?;
    let words = Words {
        terms: &counted.terms,
        core: owed.core,
        naming: &naming,
    };
    for number in 0..facts.len() {
        let mut text = Page::new(alloc);
        text.text("   ")?;
        text.number(counts.get(number).copied().unwrap_or(0))?;
        text.text(" times: ")?;
        let mut formula = Page::new(alloc);
        put_formula(&mut formula, words, facts[number].atom, true)?;
        put_cut(&mut text, formula.as_slice())?;
        finding.labels.push(Label { text, span: None })?;
    }
    finding.names = naming.notes(alloc)?;
    Ok(())
}

// A text, or its first 75 bytes; a character isn't cut in two.
fn put_cut(page: &mut Page, text: &[u8]) -> Result<(), NoMemory> {
    let mut count = 0usize;
    for byte in text {
        if count >= 75 && (*byte < 128 || *byte >= 192) {
            return page.text(" ..");
        }
        page.repeat(*byte, 1)?;
        count = count.saturating_add(1);
    }
    Ok(())
}

// The greatest count below another one; 0 where there is none.
fn most_below(atoms: &[(u32, u64)], below: u64) -> u64 {
    let mut most = 0u64;
    for pair in atoms {
        if pair.1 < below {
            most = most.max(pair.1);
        }
    }
    most
}

// Whether paths come together behind the node, before the place.
fn joins(seen: &Seen, class: Class, at: u32, before: u32) -> bool {
    (class == Class::If || class == Class::Switch)
        && at < before
        && seen.decl_at(at) == seen.decl_at(before)
}

// The constructs before the place behind which paths come together, the last few.
fn put_choices(alloc: Global, seen: &Seen, at: u32, finding: &mut Finding) -> Result<(), NoMemory> {
    let mut count = 0usize;
    for node in seen.nodes.all() {
        if joins(seen, node.class, node.at, at) {
            count = count.saturating_add(1);
        }
    }
    let mut words = "Paths come together behind this one:";
    for node in seen.nodes.all() {
        if joins(seen, node.class, node.at, at) {
            if count <= MOST {
                let mut page = Page::new(alloc);
                page.text(words)?;
                point(finding, page, node.span)?;
                words = "and behind this one:";
            }
            count = count.saturating_sub(1);
        }
    }
    Ok(())
}
