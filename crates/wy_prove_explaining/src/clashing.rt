//! What clashes in the classes of a node.
ghost use Rattle.std.specs.Prelude.{◌<◌, length};
ghost use Rattle.wy_search_bounds.specs.wy_cong.Seen.{IsPresent};
ghost use Rattle.wy_facts.specs.Seen.{Stays};
ghost use Rattle.wy_check_nodes.specs.Seen.{IsBranch};

use crate::action::{Action, Named};
use crate::explaining::{Pair, explain};
use crate::merging::merges;
use wy_check_nodes::{Branch, nth_literal};
use wy_check_splits::{are_apart, constant_at, copied_kind, kind_given, same_kind};
use wy_search_bounds::{Present, in_one_class};
use wy_term::{Kind, NoMemory, Node, Terms};

// A term of a kind, by a literal, or as it is written out.
#[derive(Drop)]
struct Kinded {
    term: u32,
    kind: Kind,
    by: Option<Named>,
}

// Two terms of one class whose kinds clash, each with the literal that tells the kind.
#[derive(Clone, Copy, Debug, PartialEq, Eq)]
struct Clash {
    first: u32,
    first_by: Option<Named>,
    second: u32,
    second_by: Option<Named>,
}

// ---- equations

// The sides of a denied equation inside a class.
fn denied_sides(
    terms: &Terms,
    present: &Present,
    labels: &[u32],
    atom: u32,
    holds: bool,
) -> Option<Pair>
    requires atom { atom < length terms.now }
    requires present { IsPresent terms.now present.now }
{
    if holds {
        return None;
    }
    match terms.node(atom) {
        Node::Equal(v, w) => {
            if in_one_class(terms, present, labels, *v, *w) {
                Some((*v, *w))
            } else {
                None
            }
        }
        _ => None,
    }
}

// Those of the first such literal.
fn denied_equation(
    terms: &Terms,
    branch: &Branch,
    present: &Present,
    labels: &[u32],
) -> Option<Pair>
    requires branch { IsBranch terms.now branch.now }
    requires present { IsPresent terms.now present.now }
{
    for i in 0..branch.literals.len() {
        let (atom, holds) = nth_literal(terms, branch, i);
        if let Some(pair) = denied_sides(terms, present, labels, atom, holds) {
            return Some(pair);
        }
    }
    None
}

// Whether two terms are different constants in one class.
fn are_clashing(terms: &Terms, present: &Present, labels: &[u32], s: u32, t: u32) -> bool
    requires first { s < length terms.now }
    requires second { t < length terms.now }
    requires present { IsPresent terms.now present.now }
{
    let c = constant_at(terms, s);
    let d = constant_at(terms, t);
    if !are_apart(c, d) {
        return false;
    }
    in_one_class(terms, present, labels, s, t)
}

// A constant in the class of this one that is another one.
fn constant_beside(terms: &Terms, present: &Present, labels: &[u32], s: u32) -> Option<Pair>
    requires term { s < length terms.now }
    requires present { IsPresent terms.now present.now }
{
    for i in 0..present.numbers.len() {
        let t = present.numbers[i];
        if are_clashing(terms, present, labels, s, t) {
            return Some((s, t));
        }
    }
    None
}

// Two different constants in one class.
fn two_constants(terms: &Terms, present: &Present, labels: &[u32]) -> Option<Pair>
    requires present { IsPresent terms.now present.now }
{
    for i in 0..present.numbers.len() {
        if let Some(pair) = constant_beside(terms, present, labels, present.numbers[i]) {
            return Some(pair);
        }
    }
    None
}

// Two terms in one class that can't be equal.
fn two_apart(terms: &Terms, branch: &Branch, present: &Present, labels: &[u32]) -> Option<Pair>
    requires branch { IsBranch terms.now branch.now }
    requires present { IsPresent terms.now present.now }
{
    match denied_equation(terms, branch, present, labels) {
        Some(pair) => Some(pair),
        None => two_constants(terms, present, labels),
    }
}

// ---- kinds

// The kind that an atom gives or denies, by its sign.
fn push_kind(
    terms: &Terms,
    kinds: &mut Vec<Kinded>,
    sign: bool,
    atom: u32,
    holds: bool,
) -> Result<(), NoMemory>
    requires { atom < length terms.now }
{
    if sign != holds {
        return Ok(());
    }
    match terms.node(atom) {
        Node::Kind(v, kind) => {
            let kind = copied_kind(terms.allocator(), kind)?;
            kinds.push(Kinded {
                term: *v,
                kind,
                by: Some(Named::Literal(atom, holds)),
            })?;
            Ok(())
        }
        _ => Ok(()),
    }
}

// The kinds that the literals give, or those that they deny.
fn kinds_by(terms: &Terms, branch: &Branch, sign: bool) -> Result<Vec<Kinded>, NoMemory>
    requires { IsBranch terms.now branch.now }
{
    let mut kinds = Vec::new(terms.allocator());
    for i in 0..branch.literals.len() {
        let (atom, holds) = nth_literal(terms, branch, i);
        push_kind(terms, &mut kinds, sign, atom, holds)?;
    }
    Ok(kinds)
}

// The kind of a term, where it is a constant or written out.
fn push_own(terms: &Terms, kinds: &mut Vec<Kinded>, t: u32) -> Result<(), NoMemory>
    requires { t < length terms.now }
{
    match kind_given(terms, t)? {
        Some(kind) => {
            kinds.push(Kinded {
                term: t,
                kind,
                by: None,
            })?;
            Ok(())
        }
        None => Ok(()),
    }
}

// Behind these kinds, those of the terms present that are constants or written out.
fn push_owns(terms: &Terms, present: &Present, kinds: &mut Vec<Kinded>) -> Result<(), NoMemory>
    requires { IsPresent terms.now present.now }
{
    for i in 0..present.numbers.len() {
        push_own(terms, kinds, present.numbers[i])?;
    }
    Ok(())
}

// Whether two terms are in one class, and their kinds are the same or aren't, as is wanted.
fn meet(
    terms: &Terms,
    present: &Present,
    labels: &[u32],
    p: &Kinded,
    q: &Kinded,
    same: bool,
) -> bool
    requires { IsPresent terms.now present.now }
{
    if same_kind(&p.kind, &q.kind) != same {
        return false;
    }
    if p.term as usize >= terms.len() || q.term as usize >= terms.len() {
        return false;
    }
    in_one_class(terms, present, labels, p.term, q.term)
}

// The first of these that meets this one.
fn meeting(
    terms: &Terms,
    present: &Present,
    labels: &[u32],
    p: &Kinded,
    qs: &[Kinded],
    same: bool,
) -> Option<Clash>
    requires { IsPresent terms.now present.now }
{
    for q in qs {
        if meet(terms, present, labels, p, q, same) {
            return Some(Clash {
                first: p.term,
                first_by: p.by,
                second: q.term,
                second_by: q.by,
            });
        }
    }
    None
}

// One of the first and one of the second that meet.
fn any_meeting(
    terms: &Terms,
    present: &Present,
    labels: &[u32],
    ps: &[Kinded],
    qs: &[Kinded],
    same: bool,
) -> Option<Clash>
    requires { IsPresent terms.now present.now }
{
    for p in ps {
        if let Some(clash) = meeting(terms, present, labels, p, qs, same) {
            return Some(clash);
        }
    }
    None
}

// Two terms of one class that have two kinds, or a kind and its denial.
fn two_kinds(
    terms: &Terms,
    branch: &Branch,
    present: &Present,
    labels: &[u32],
) -> Result<Option<Clash>, NoMemory>
    requires branch { IsBranch terms.now branch.now }
    requires present { IsPresent terms.now present.now }
{
    let mut given = kinds_by(terms, branch, true)?;
    push_owns(terms, present, &mut given)?;
    if let Some(clash) = any_meeting(terms, present, labels, &given, &given, false) {
        return Ok(Some(clash));
    }
    let denied = kinds_by(terms, branch, false)?;
    Ok(any_meeting(terms, present, labels, &given, &denied, true))
}

// ---- what shows it

// The equation of the terms, where they are two.
fn equation(terms: &mut Terms, clash: Clash) -> Result<Named, NoMemory>
    ensures { Stays terms.old terms.new }
{
    if clash.first as usize >= terms.len() || clash.second as usize >= terms.len() {
        return Err(NoMemory);
    }
    let atom = terms.intern(Node::Equal(clash.first, clash.second))?;
    Ok(Named::Literal(atom, true))
}

// The literals that clash once the terms are joined.
fn closing(terms: &mut Terms, clash: Clash) -> Result<Action, NoMemory>
    ensures { Stays terms.old terms.new }
{
    match (clash.first_by, clash.second_by) {
        (Some(i), Some(j)) => Ok(Action::Clash(i, Some(j))),
        (Some(i), None) => {
            let e = equation(terms, clash)?;
            Ok(Action::Clash(i, Some(e)))
        }
        (None, Some(j)) => {
            let e = equation(terms, clash)?;
            Ok(Action::Clash(e, Some(j)))
        }
        (None, None) => {
            let e = equation(terms, clash)?;
            Ok(Action::Clash(e, None))
        }
    }
}

// The chains that join two terms of one class, if they are two.
fn join(
    terms: &Terms,
    branch: &Branch,
    present: &Present,
    labels: &[u32],
    pair: Pair,
    plan: &mut Vec<Action>,
) -> Result<(), NoMemory>
    requires branch { IsBranch terms.now branch.now }
    requires present { IsPresent terms.now present.now }
{
    if pair.0 == pair.1 {
        return Ok(());
    }
    let merges = merges(terms, branch, present, labels)?;
    explain(terms, &merges, &[pair], plan)
}

// The steps where two terms in one class can't be equal.
fn by_pair(
    terms: &Terms,
    branch: &Branch,
    present: &Present,
    labels: &[u32],
    pair: Pair,
) -> Result<Vec<Action>, NoMemory>
    requires branch { IsBranch terms.now branch.now }
    requires present { IsPresent terms.now present.now }
{
    let mut plan = Vec::new(terms.allocator());
    join(terms, branch, present, labels, pair, &mut plan)?;
    plan.push(Action::Shut)?;
    Ok(plan)
}

// The steps where the kinds of two terms in one class clash.
fn by_clash(
    terms: &mut Terms,
    branch: &Branch,
    present: &Present,
    labels: &[u32],
    clash: Clash,
) -> Result<Vec<Action>, NoMemory>
    requires branch { IsBranch terms.old branch.now }
    requires present { IsPresent terms.old present.now }
    ensures { Stays terms.old terms.new }
{
    let mut plan = Vec::new(terms.allocator());
    join(
        terms,
        branch,
        present,
        labels,
        (clash.first, clash.second),
        &mut plan,
    )?;
    let last = closing(terms, clash)?;
    plan.push(last)?;
    Ok(plan)
}

// The steps by kinds that clash, none where no kinds do.
fn by_kinds(
    terms: &mut Terms,
    branch: &Branch,
    present: &Present,
    labels: &[u32],
) -> Result<Vec<Action>, NoMemory>
    requires branch { IsBranch terms.old branch.now }
    requires present { IsPresent terms.old present.now }
    ensures { Stays terms.old terms.new }
{
    match two_kinds(terms, branch, present, labels)? {
        Some(clash) => by_clash(terms, branch, present, labels, clash),
        None => Ok(Vec::new(terms.allocator())),
    }
}

/// The steps that close a node whose classes clash: chains that join the terms which can't be equal, and then `shut` or
/// `clash`. Older numbers name what they named.
pub fn why_they_clash(
    terms: &mut Terms,
    branch: &Branch,
    present: &Present,
    labels: &[u32],
) -> Result<Vec<Action>, NoMemory>
    requires branch { IsBranch terms.old branch.now }
    requires present { IsPresent terms.old present.now }
    ensures { Stays terms.old terms.new }
{
    match two_apart(terms, branch, present, labels) {
        Some(pair) => by_pair(terms, branch, present, labels, pair),
        None => by_kinds(terms, branch, present, labels),
    }
}
