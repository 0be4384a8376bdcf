//! The chains by which literals join terms of one class.
ghost use Rattle.std.specs.Prelude.{◌<◌, length};

use crate::action::Action;
use crate::merging::Merge;
use crate::paths::path;
use std::alloc::Global;
use std::collections::BTreeSet;
use wy_items::at;
use wy_term::{NoMemory, Terms};
use wy_term_subst::parts_of;

/// Two terms that are to be joined.
pub type Pair = (u32, u32);

// ---- which merges are needed

// Marks the merges on the way from one term to another: those whose terms both stand on it, since merges make a forest.
fn mark_path(
    alloc: Global,
    marked: &mut BTreeSet<usize>,
    merges: &[Merge],
    pair: Pair,
) -> Result<(), NoMemory> {
    let way = path(alloc, merges, pair.0, pair.1)?;
    for (k, merge) in merges.iter().enumerate() {
        if way.as_slice().contains(&merge.first) && way.as_slice().contains(&merge.second) {
            marked.insert(k)?;
        }
    }
    Ok(())
}

fn mark_paths(
    alloc: Global,
    marked: &mut BTreeSet<usize>,
    merges: &[Merge],
    pairs: &[Pair],
) -> Result<(), NoMemory> {
    for pair in pairs {
        mark_path(alloc, marked, merges, *pair)?;
    }
    Ok(())
}

// The parts of a term, none of a number that is no term's.
fn parts_at(terms: &Terms, t: u32) -> Result<Vec<u32>, NoMemory> {
    if t as usize >= terms.len() {
        return Ok(Vec::new(terms.allocator()));
    }
    Ok(parts_of(terms.allocator(), terms.node(t))?)
}

// One pair more, unless both are one term.
fn push_apart(pairs: &mut Vec<Pair>, s: u32, t: u32) -> Result<(), NoMemory> {
    if s != t {
        pairs.push((s, t))?;
    }
    Ok(())
}

// The arguments of two congruent terms, pairwise, where they are different terms.
fn argument_pairs(terms: &Terms, merge: Merge) -> Result<Vec<Pair>, NoMemory> {
    let mut pairs = Vec::new(terms.allocator());
    if !merge.congruent {
        return Ok(pairs);
    }
    let ss = parts_at(terms, merge.first)?;
    let ts = parts_at(terms, merge.second)?;
    for (i, s) in ss.iter().enumerate() {
        if let Some(t) = at(&ts, i) {
            push_apart(&mut pairs, *s, *t)?;
        }
    }
    Ok(pairs)
}

// What stands in a list before a place.
fn before(merges: &[Merge], k: usize) -> &[Merge]
    requires { k < length merges.now }
{
    &merges[..k]
}

// Marks what joins the arguments of the merge at a place, if that one is marked.
fn mark_arguments(
    terms: &Terms,
    marked: &mut BTreeSet<usize>,
    merges: &[Merge],
    k: usize,
) -> Result<(), NoMemory>
    requires { k < length merges.now }
{
    if !marked.contains(&k) {
        return Ok(());
    }
    let pairs = argument_pairs(terms, merges[k])?;
    mark_paths(terms.allocator(), marked, before(merges, k), &pairs)
}

// The places of the merges that join these pairs, and what joins the arguments of these.
fn needed(terms: &Terms, merges: &[Merge], wanted: &[Pair]) -> Result<BTreeSet<usize>, NoMemory> {
    let mut marked = BTreeSet::new(terms.allocator());
    mark_paths(terms.allocator(), &mut marked, merges, wanted)?;
    let count = merges.len();
    for turn in 0..count {
        mark_arguments(terms, &mut marked, merges, count - 1 - turn)?;
    }
    Ok(marked)
}

// ---- chains

// The chains along the ways between these pairs.
fn push_chains(
    alloc: Global,
    plan: &mut Vec<Action>,
    merges: &[Merge],
    pairs: &[Pair],
) -> Result<(), NoMemory> {
    for pair in pairs {
        let way = path(alloc, merges, pair.0, pair.1)?;
        plan.push(Action::Chain(way))?;
    }
    Ok(())
}

// Those of the arguments of the merge at a place, if that one is marked.
fn push_arguments(
    terms: &Terms,
    plan: &mut Vec<Action>,
    marked: &BTreeSet<usize>,
    merges: &[Merge],
    k: usize,
) -> Result<(), NoMemory>
    requires { k < length merges.now }
{
    if !marked.contains(&k) {
        return Ok(());
    }
    let pairs = argument_pairs(terms, merges[k])?;
    push_chains(terms.allocator(), plan, before(merges, k), &pairs)
}

/// The chains by which these pairs of terms are joined, each behind those that it needs.
pub fn explain(
    terms: &Terms,
    merges: &[Merge],
    wanted: &[Pair],
    plan: &mut Vec<Action>,
) -> Result<(), NoMemory> {
    let marked = needed(terms, merges, wanted)?;
    for k in 0..merges.len() {
        push_arguments(terms, plan, &marked, merges, k)?;
    }
    push_chains(terms.allocator(), plan, merges, wanted)
}
