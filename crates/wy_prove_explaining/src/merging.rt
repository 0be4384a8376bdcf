//! The classes of a node's congruence, joined again one after the other.
ghost use Rattle.std.specs.Prelude.{◌≡◌, ◌<◌, length};
ghost use Rattle.wy_search_bounds.specs.wy_cong.Seen.{IsPresent};
ghost use Rattle.wy_check_nodes.specs.Seen.{AreBelow, IsBranch};

use std::alloc::Global;
use wy_check_nodes::{Branch, nth_literal};
use wy_items::at;
use wy_search_bounds::{Present, in_one_class, place};
use wy_term::{NoMemory, Node, Terms};
use wy_term_subst::{parts_of, with_parts};

/// Two terms whose classes became one: as an equation joins them, or as they are congruent.
#[derive(Clone, Copy, Debug, PartialEq, Eq)]
pub struct Merge {
    pub first: u32,
    pub second: u32,
    pub congruent: bool,
}

// The labels of classes as far as they are joined, and how they came.
#[derive(Drop)]
struct Merging {
    labels: Vec<u32>,
    merges: Vec<Merge>,
}

// ---- classes

/// The label at a place, 0 where there is none.
fn label_at(labels: &[u32], k: u32) -> u32 {
    match at(labels, k as usize) {
        Some(found) => *found,
        None => 0,
    }
}

// So many labels, each of a class of its own.
fn own_labels(alloc: Global, count: usize) -> Result<Vec<u32>, NoMemory> {
    let mut made = Vec::new(alloc);
    for number in 0..count {
        match u32::try_from(number) {
            Ok(l) => made.push(l)?,
            Err(_) => return Err(NoMemory),
        }
    }
    Ok(made)
}

// The label, where one class becomes another.
fn moved(from: u32, into: u32, l: u32) -> u32 {
    if l == from { into } else { l }
}

// The labels, where one class becomes another.
fn relabelled(alloc: Global, from: u32, into: u32, labels: &[u32]) -> Result<Vec<u32>, NoMemory> {
    let mut made = Vec::new(alloc);
    for l in labels {
        made.push(moved(from, into, *l))?;
    }
    Ok(made)
}

// The label of a term's class, if the term is present.
fn label_of(terms: &Terms, present: &Present, labels: &[u32], t: u32) -> Option<u32>
    requires term { t < length terms.now }
    requires present { IsPresent terms.now present.now }
{
    match place(terms, present, t) {
        Some(k) => Some(label_at(labels, k)),
        None => None,
    }
}

// The class with one label becomes the class with another, unless they are one, by these terms.
fn with_merge(
    alloc: Global,
    merging: Merging,
    from: u32,
    into: u32,
    merge: Merge,
) -> Result<Merging, NoMemory> {
    if from == into {
        return Ok(merging);
    }
    let Merging { labels, mut merges } = merging;
    let joined = relabelled(alloc, from, into, &labels)?;
    merges.push(merge)?;
    Ok(Merging {
        labels: joined,
        merges,
    })
}

// The classes of two terms become one, where both are present.
fn with_two(
    terms: &Terms,
    present: &Present,
    merging: Merging,
    merge: Merge,
) -> Result<Merging, NoMemory>
    requires first { merge.first < length terms.now }
    requires second { merge.second < length terms.now }
    requires present { IsPresent terms.now present.now }
{
    let from = label_of(terms, present, &merging.labels, merge.first);
    let into = label_of(terms, present, &merging.labels, merge.second);
    match (from, into) {
        (Some(a), Some(b)) => with_merge(terms.allocator(), merging, a, b, merge),
        _ => Ok(merging),
    }
}

// ---- equations

// The classes of both sides of an equation that holds become one.
fn with_literal(
    terms: &Terms,
    present: &Present,
    merging: Merging,
    atom: u32,
    holds: bool,
) -> Result<Merging, NoMemory>
    requires atom { atom < length terms.now }
    requires present { IsPresent terms.now present.now }
{
    if !holds {
        return Ok(merging);
    }
    match terms.node(atom) {
        Node::Equal(v, w) => {
            let merge = Merge {
                first: *v,
                second: *w,
                congruent: false,
            };
            with_two(terms, present, merging, merge)
        }
        _ => Ok(merging),
    }
}

// So for each equation among the literals.
fn with_equations(
    terms: &Terms,
    branch: &Branch,
    present: &Present,
    merging: Merging,
) -> Result<Merging, NoMemory>
    requires branch { IsBranch terms.now branch.now }
    requires present { IsPresent terms.now present.now }
{
    let mut merging = merging;
    for i in 0..branch.literals.len() {
        let (atom, holds) = nth_literal(terms, branch, i);
        merging = with_literal(terms, present, merging, atom, holds)?;
    }
    Ok(merging)
}

// ---- congruent terms

// The number of the name that a node binds, or 0.
fn bound_number(node: &Node) -> u128 {
    match node {
        Node::All(q) | Node::Some(q) => q.number,
        _ => 0,
    }
}

// Whether the terms are pairwise in one class, where there are as many of both.
fn arguments_equal(terms: &Terms, present: &Present, labels: &[u32], ss: &[u32], ts: &[u32]) -> bool
    requires first { AreBelow (length terms.now) ss.now }
    requires second { AreBelow (length terms.now) ts.now }
    requires many { length ss.now ≡ length ts.now }
    requires present { IsPresent terms.now present.now }
{
    for i in 0..ss.len() {
        if !in_one_class(terms, present, labels, ss[i], ts[i]) {
            return false;
        }
    }
    true
}

// Whether two terms have one head, and arguments that are pairwise in one class.
fn are_congruent(
    terms: &Terms,
    present: &Present,
    labels: &[u32],
    s: u32,
    t: u32,
) -> Result<bool, NoMemory>
    requires first { s < length terms.now }
    requires second { t < length terms.now }
    requires present { IsPresent terms.now present.now }
{
    let alloc = terms.allocator();
    let ss = parts_of(alloc, terms.node(s))?;
    let ts = parts_of(alloc, terms.node(t))?;
    if ss.len() != ts.len() {
        return Ok(false);
    }
    let node = with_parts(alloc, terms.node(s), bound_number(terms.node(s)), &ts)?;
    if node != *terms.node(t) {
        return Ok(false);
    }
    Ok(arguments_equal(terms, present, labels, &ss, &ts))
}

// The classes of two terms become one, if they are congruent.
fn with_pair(
    terms: &Terms,
    present: &Present,
    merging: Merging,
    s: u32,
    t: u32,
) -> Result<Merging, NoMemory>
    requires first { s < length terms.now }
    requires second { t < length terms.now }
    requires present { IsPresent terms.now present.now }
{
    if in_one_class(terms, present, &merging.labels, s, t) {
        return Ok(merging);
    }
    if !are_congruent(terms, present, &merging.labels, s, t)? {
        return Ok(merging);
    }
    let merge = Merge {
        first: s,
        second: t,
        congruent: true,
    };
    with_two(terms, present, merging, merge)
}

// So for a term and each other one that ends in its class.
fn with_term(
    terms: &Terms,
    present: &Present,
    whole: &[u32],
    merging: Merging,
    s: u32,
) -> Result<Merging, NoMemory>
    requires term { s < length terms.now }
    requires present { IsPresent terms.now present.now }
{
    let mut merging = merging;
    for i in 0..present.numbers.len() {
        let t = present.numbers[i];
        if in_one_class(terms, present, whole, s, t) {
            merging = with_pair(terms, present, merging, s, t)?;
        }
    }
    Ok(merging)
}

// So for each term.
fn with_round(
    terms: &Terms,
    present: &Present,
    whole: &[u32],
    merging: Merging,
) -> Result<Merging, NoMemory>
    requires present { IsPresent terms.now present.now }
{
    let mut merging = merging;
    for i in 0..present.numbers.len() {
        merging = with_term(terms, present, whole, merging, present.numbers[i])?;
    }
    Ok(merging)
}

/// Which terms join the classes of a node, in an order in which each congruence comes behind what joins its arguments. The
/// labels are those of the node's classes; only terms of one class are compared, in each round each with each.
pub fn merges(
    terms: &Terms,
    branch: &Branch,
    present: &Present,
    whole: &[u32],
) -> Result<Vec<Merge>, NoMemory>
    requires branch { IsBranch terms.now branch.now }
    requires present { IsPresent terms.now present.now }
{
    let alloc = terms.allocator();
    let first = Merging {
        labels: own_labels(alloc, present.numbers.len())?,
        merges: Vec::new(alloc),
    };
    let mut merging = with_equations(terms, branch, present, first)?;
    for _round in 0..present.numbers.len() {
        let before = merging.merges.len();
        merging = with_round(terms, present, whole, merging)?;
        if merging.merges.len() == before {
            return Ok(merging.merges);
        }
    }
    Ok(merging.merges)
}
