//! What literals say of a formula.
ghost use Rattle.std.specs.Prelude.{◌≡◌, ◌<◌, nat_eq, ℕ, List, Some, length, slice_get, IfOk, IfSome, OnOk};
ghost use Rattle.std.specs.HashMap.{get};
ghost use Rattle.wy_check_spec.specs.wy_term.Term.{Term};
ghost use Rattle.wy_check_spec.specs.wy_term.Nodes.{tree_at, parts_at};
ghost use Rattle.wy_check_spec.specs.judge.Node.{Literal};
ghost use Rattle.wy_check_spec.specs.judge.Judgement.{turned, judged, judged_all, judged_any};
ghost use Rattle.wy_check_nodes.specs.Seen.{seen_branch, IsBranch, AreBelow};
ghost use Rattle.wy_check_nodes.specs.Judged.{fails, Knows, is_any_refuted};

use crate::branch::Branch;
use crate::few::{of_atom, of_few};
use crate::standing::stands_at_once;
use crate::verdicts::{fails, join, meet, turn};
use std::alloc::Global;
use std::collections::HashMap;
use wy_check_spec::judge::Verdict;
use wy_check_spec::{NoMemory, Node, Terms};

/// What a node's literals are known to say of formulas, by their numbers.
#[derive(Drop)]
pub struct Known {
    pub verdicts: HashMap<u32, Verdict>,
}

/// Nothing yet. It takes no memory.
pub fn nothing_known(alloc: Global) -> Known
    ensures { (at : ℕ → Term) (ls : List Literal) → Knows at ls result }
{
    Known {
        verdicts: HashMap::new(alloc),
    }
}

// ---- what is known

// What is known of a formula.
fn known_at(known: &Known, f: u32) -> Option<Verdict>
    ensures { result ≡ get nat_eq known.now.verdicts f }
{
    known.verdicts.get(&f).copied()
}

// Notes what the literals say of a formula.
fn note(known: &mut Known, f: u32, verdict: Verdict) -> Result<(), NoMemory>
    ensures { (at : ℕ → Term) (ls : List Literal) → Knows at ls known.old → verdict ≡ judged ls (at f) → OnOk result (Knows at ls known.new) }
{
    known.verdicts.insert(f, verdict)?;
    Ok(())
}

// ---- formulas by what is known

// What the literals say of a formula, if it is made of few atoms or is known.
fn verdict_at(terms: &Terms, branch: &Branch, known: &Known, f: u32) -> Option<Verdict>
    requires formula { f < length terms.now }
    requires branch { IsBranch terms.now branch.now }
    requires known { Knows (tree_at terms.now) (seen_branch (tree_at terms.now) branch.now).literals known.now }
    ensures { IfSome result (λ v. v ≡ judged (seen_branch (tree_at terms.now) branch.now).literals (tree_at terms.now f)) }
{
    match of_few(terms, branch, f) {
        Some(v) => Some(v),
        None => known_at(known, f),
    }
}

// What the literals say of the `and` of these formulas, if they tell it by what is known.
fn of_all(terms: &Terms, branch: &Branch, known: &Known, members: &[u32]) -> Option<Verdict>
    requires members { AreBelow (length terms.now) members.now }
    requires branch { IsBranch terms.now branch.now }
    requires known { Knows (tree_at terms.now) (seen_branch (tree_at terms.now) branch.now).literals known.now }
    ensures { IfSome result (λ v. v ≡ judged_all (seen_branch (tree_at terms.now) branch.now).literals (parts_at (tree_at terms.now) members.now)) }
{
    let mut verdict = Verdict::Yes;
    let mut left = members.len();
    while left > 0 {
        left -= 1;
        let Some(v) = verdict_at(terms, branch, known, members[left]) else {
            return None;
        };
        if fails(v, true) {
            return Some(Verdict::No);
        }
        verdict = meet(v, verdict);
    }
    Some(verdict)
}

// What the literals say of the `or` of these formulas, if they tell it by what is known.
fn of_any(terms: &Terms, branch: &Branch, known: &Known, members: &[u32]) -> Option<Verdict>
    requires members { AreBelow (length terms.now) members.now }
    requires branch { IsBranch terms.now branch.now }
    requires known { Knows (tree_at terms.now) (seen_branch (tree_at terms.now) branch.now).literals known.now }
    ensures { IfSome result (λ v. v ≡ judged_any (seen_branch (tree_at terms.now) branch.now).literals (parts_at (tree_at terms.now) members.now)) }
{
    let mut verdict = Verdict::No;
    let mut left = members.len();
    while left > 0 {
        left -= 1;
        let Some(v) = verdict_at(terms, branch, known, members[left]) else {
            return None;
        };
        if fails(v, false) {
            return Some(Verdict::Yes);
        }
        verdict = join(v, verdict);
    }
    Some(verdict)
}

// What the literals say of the denial of a formula, if they tell it by what is known.
fn of_denial(terms: &Terms, branch: &Branch, known: &Known, f: u32) -> Option<Verdict>
    requires formula { f < length terms.now }
    requires branch { IsBranch terms.now branch.now }
    requires known { Knows (tree_at terms.now) (seen_branch (tree_at terms.now) branch.now).literals known.now }
    ensures { IfSome result (λ v. v ≡ turned (judged (seen_branch (tree_at terms.now) branch.now).literals (tree_at terms.now f))) }
{
    match verdict_at(terms, branch, known, f) {
        Some(v) => Some(turn(v)),
        None => None,
    }
}

// What the literals say of a formula, if they tell it by what is known of its parts.
fn by_parts(terms: &Terms, branch: &Branch, known: &Known, f: u32) -> Option<Verdict>
    requires formula { f < length terms.now }
    requires branch { IsBranch terms.now branch.now }
    requires known { Knows (tree_at terms.now) (seen_branch (tree_at terms.now) branch.now).literals known.now }
    ensures { IfSome result (λ v. v ≡ judged (seen_branch (tree_at terms.now) branch.now).literals (tree_at terms.now f)) }
{
    match terms.node(f) {
        Node::Not(g) => of_denial(terms, branch, known, *g),
        Node::And(members) => of_all(terms, branch, known, members),
        Node::Or(members) => of_any(terms, branch, known, members),
        _ => Some(of_atom(terms, branch, f)),
    }
}

// ---- the work list

// A formula is to be judged, unless it is made of few atoms or is known.
fn with_unknown(
    terms: &Terms,
    branch: &Branch,
    known: &Known,
    todo: &mut Vec<u32>,
    f: u32,
) -> Result<(), NoMemory>
    requires formula { f < length terms.now }
    requires branch { IsBranch terms.now branch.now }
    requires known { Knows (tree_at terms.now) (seen_branch (tree_at terms.now) branch.now).literals known.now }
    requires todo { AreBelow (length terms.now) todo.old.items }
    ensures todo { OnOk result (AreBelow (length terms.now) todo.new.items) }
{
    if verdict_at(terms, branch, known, f).is_none() {
        todo.push(f)?;
    }
    Ok(())
}

// Each of these formulas is to be judged, unless it is made of few atoms or is known.
fn with_members(
    terms: &Terms,
    branch: &Branch,
    known: &Known,
    todo: &mut Vec<u32>,
    members: &[u32],
) -> Result<(), NoMemory>
    requires members { AreBelow (length terms.now) members.now }
    requires branch { IsBranch terms.now branch.now }
    requires known { Knows (tree_at terms.now) (seen_branch (tree_at terms.now) branch.now).literals known.now }
    requires todo { AreBelow (length terms.now) todo.old.items }
    ensures todo { OnOk result (AreBelow (length terms.now) todo.new.items) }
{
    for member in members {
        with_unknown(terms, branch, known, todo, *member)?;
    }
    Ok(())
}

// The parts of a formula are to be judged, unless they are made of few atoms or are known.
fn with_parts(
    terms: &Terms,
    branch: &Branch,
    known: &Known,
    todo: &mut Vec<u32>,
    f: u32,
) -> Result<(), NoMemory>
    requires formula { f < length terms.now }
    requires branch { IsBranch terms.now branch.now }
    requires known { Knows (tree_at terms.now) (seen_branch (tree_at terms.now) branch.now).literals known.now }
    requires todo { AreBelow (length terms.now) todo.old.items }
    ensures todo { OnOk result (AreBelow (length terms.now) todo.new.items) }
{
    match terms.node(f) {
        Node::Not(g) => with_unknown(terms, branch, known, todo, *g),
        Node::And(members) => with_members(terms, branch, known, todo, members),
        Node::Or(members) => with_members(terms, branch, known, todo, members),
        _ => Ok(()),
    }
}

// Judges a formula, unless it is known, or puts it back behind its parts.
fn step(
    terms: &Terms,
    branch: &Branch,
    known: &mut Known,
    todo: &mut Vec<u32>,
    f: u32,
) -> Result<(), NoMemory>
    requires formula { f < length terms.now }
    requires branch { IsBranch terms.now branch.now }
    requires known { Knows (tree_at terms.now) (seen_branch (tree_at terms.now) branch.now).literals known.old }
    requires todo { AreBelow (length terms.now) todo.old.items }
    ensures known { OnOk result (Knows (tree_at terms.now) (seen_branch (tree_at terms.now) branch.now).literals known.new) }
    ensures todo { OnOk result (AreBelow (length terms.now) todo.new.items) }
{
    if known_at(known, f).is_some() {
        return Ok(());
    }
    match by_parts(terms, branch, known, f) {
        Some(verdict) => note(known, f, verdict),
        None => {
            todo.push(f)?;
            with_parts(terms, branch, known, todo, f)
        }
    }
}

/// What the literals of a node say of a formula: of an atom by whether it or its denial stands among them, of other formulas
/// by the connectives of three values. An atom or a connective of few atoms is asked of the literals each time. What is found
/// of other connectives that stand in the formula is noted, so that it is known for other formulas too; where there are none,
/// it takes no memory. It works on a list of what is still to be judged, and takes time linear in how many connectives stand
/// in the formula that aren't known yet, and their members, and in how many members the formula has.
pub fn judge(terms: &Terms, branch: &Branch, known: &mut Known, f: u32) -> Result<Verdict, NoMemory>
    requires formula { f < length terms.now }
    requires branch { IsBranch terms.now branch.now }
    requires known { Knows (tree_at terms.now) (seen_branch (tree_at terms.now) branch.now).literals known.old }
    ensures value { IfOk result (λ v. v ≡ judged (seen_branch (tree_at terms.now) branch.now).literals (tree_at terms.now f)) }
    ensures known { OnOk result (Knows (tree_at terms.now) (seen_branch (tree_at terms.now) branch.now).literals known.new) }
{
    let mut todo = Vec::new(terms.allocator());
    for _turn in 0..u64::MAX {
        if let Some(t) = todo.pop() {
            step(terms, branch, known, &mut todo, t)?;
        } else if let Some(verdict) = by_parts(terms, branch, known, f) {
            return Ok(verdict);
        } else {
            with_parts(terms, branch, known, &mut todo, f)?;
        }
    }
    Err(NoMemory)
}

// ---- pending formulas

/// The pending formula with a place from 0, by its number, and whether it holds, in constant time.
pub fn pending_at(branch: &Branch, i: usize) -> (u32, bool)
    requires { i < length branch.now.pending.keys }
    ensures { slice_get branch.now.pending.keys i ≡ Some result }
{
    match branch.pending.get_index(i) {
        Some(p) => *p,
        None => (0, false),
    }
}

// Whether a pending formula is judged no.
fn is_judged_no(
    terms: &Terms,
    branch: &Branch,
    known: &mut Known,
    f: u32,
    holds: bool,
) -> Result<bool, NoMemory>
    requires formula { f < length terms.now }
    requires branch { IsBranch terms.now branch.now }
    requires known { Knows (tree_at terms.now) (seen_branch (tree_at terms.now) branch.now).literals known.old }
    ensures value { IfOk result (λ yes. yes ≡ fails (judged (seen_branch (tree_at terms.now) branch.now).literals (tree_at terms.now f)) holds) }
    ensures known { OnOk result (Knows (tree_at terms.now) (seen_branch (tree_at terms.now) branch.now).literals known.new) }
{
    if stands_at_once(terms, branch, f, holds) {
        return Ok(false);
    }
    let verdict = judge(terms, branch, known, f)?;
    Ok(fails(verdict, holds))
}

/// Whether a pending formula of a node is judged no. It takes time linear in how many formulas the pending ones are made of,
/// each counted once, and their members.
pub fn is_refuted(terms: &Terms, branch: &Branch) -> Result<bool, NoMemory>
    requires { IsBranch terms.now branch.now }
    ensures value { IfOk result (λ yes. yes ≡ is_any_refuted (seen_branch (tree_at terms.now) branch.now).literals (seen_branch (tree_at terms.now) branch.now).pending) }
{
    let mut known = nothing_known(terms.allocator());
    for i in 0..branch.pending.len() {
        let (f, holds) = pending_at(branch, i);
        if is_judged_no(terms, branch, &mut known, f, holds)? {
            return Ok(true);
        }
    }
    Ok(false)
}
