//! What becomes of a node.
ghost use Rattle.std.specs.Prelude.{◌≡◌, ◌<◌, ℕ, List, length, option_map, IfOk, IfSome, OnOk};
ghost use Rattle.wy_search_bounds.specs.Known.{AreKnown};
ghost use Rattle.wy_search_bounds.specs.Seen.{seen_ending};
ghost use Rattle.wy_facts.specs.Membership.{AreTypesBelow};
ghost use Rattle.wy_facts.specs.Seen.{Stays};
ghost use Rattle.wy_check_nodes.specs.Seen.{seen_branch, IsBranch};
ghost use Rattle.wy_search_facts.specs.Seen.{seen_spot, IsSpot};
ghost use Rattle.wy_search_facts.specs.wy_search_spec.Splitting as splitting;
ghost use Rattle.wy_search_facts.specs.wy_search_spec.Tree as tree;
ghost use Rattle.wy_search.specs.Seen.{seen_why};
ghost use Rattle.wy_search.specs.Turns.{begun, Follows, IsEnding, IsNextOver, IsUnlessRefuted, split_on, with_side};
ghost use Rattle.wy_term.specs.Condition.{condition_of};
ghost use Rattle.wy_term.specs.Nodes.{Plain, tree_at};
ghost use Rattle.wy_term.specs.Term.{Term};

use crate::expanding::expanded;
use crate::verdict::Why;
use std::alloc::Global;
use wy_check_nodes::{Branch, add, bare, is_shut};
use wy_search_bounds::{
    Ending, KnownForms, classes, classes_clash, ending_of_elimination, next_atom, terms_present,
};
use wy_search_facts::{Spot, copied_branch};
use wy_term::{Cond, NoMemory, Terms};

/// What becomes of a node.
#[derive(Drop)]
pub enum Next {
    /// It is closed.
    Closed,
    /// It is an open leaf.
    Open(Spot, Why),
    /// It splits into these two, the first to be searched first.
    Splits(Spot, Spot),
    /// It goes on as this one.
    GoesOn(Spot),
}

fn why_open(ending: Ending) -> Why
    ensures { seen_why result ≡ tree.why_open (seen_ending ending) }
{
    match ending {
        Ending::Refuted => Why::Still,
        Ending::Consistent => Why::Still,
        Ending::Crowded => Why::Crowded,
        Ending::Wide => Why::Wide,
    }
}

/// A copy of a node on a path, by the lengths of its lists.
pub fn copied(alloc: Global, spot: &Spot) -> Result<Spot, NoMemory>
    ensures seen { (at : ℕ → Term) → IfOk result (λ p. seen_spot at p ≡ seen_spot at spot.now) }
    ensures spot { (nodes : List Plain) → IsSpot nodes spot.now → IfOk result (IsSpot nodes) }
{
    let branch = copied_branch(&spot.branch)?;
    let had = copied_branch(&spot.had)?;
    let names = Vec::from_slice(alloc, &spot.names)?;
    Ok(Spot {
        branch,
        had,
        names,
        rounds: spot.rounds,
    })
}

/// The node with an atom more, or with its denial.
pub fn with_atom(terms: &Terms, spot: Spot, atom: u32, holds: bool) -> Result<Spot, NoMemory>
    requires spot { IsSpot terms.now spot }
    requires atom { atom < length terms.now }
    ensures value { IfOk result (λ p. seen_spot (tree_at terms.now) p ≡ with_side (seen_spot (tree_at terms.now) spot) (tree_at terms.now atom) holds) }
    ensures spot { IfOk result (IsSpot terms.now) }
{
    let Spot {
        mut branch,
        had,
        names,
        rounds,
    } = spot;
    add(terms, &mut branch, atom, holds)?;
    Ok(Spot {
        branch,
        had,
        names,
        rounds,
    })
}

// The node with an atom more, and the node with its denial.
fn split(terms: &Terms, spot: Spot, atom: u32) -> Result<Next, NoMemory>
    requires spot { IsSpot terms.now spot }
    requires atom { atom < length terms.now }
    ensures value { IfOk result (Follows (tree_at terms.now) (seen_spot (tree_at terms.now) spot) (split_on (seen_spot (tree_at terms.now) spot) (tree_at terms.now atom))) }
    ensures next { IfOk result (IsNextOver terms.now) }
{
    let copy = copied(terms.allocator(), &spot)?;
    let left = with_atom(terms, copy, atom, true)?;
    let right = with_atom(terms, spot, atom, false)?;
    Ok(Next::Splits(left, right))
}

// Whether the second node has more.
fn is_more(old: &Spot, new: &Spot) -> bool
    ensures { (at older : ℕ → Term) → result ≡ tree.is_more (seen_spot older old.now).node (seen_spot at new.now).node }
{
    if old.branch.literals.len() < new.branch.literals.len() {
        return true;
    }
    old.branch.pending.len() < new.branch.pending.len()
}

// A round of expansion, at most two on a path.
fn on_expansion(
    terms: &mut Terms,
    known: &mut KnownForms,
    cond: &Cond,
    spot: Spot,
    ending: Ending,
) -> Result<Next, NoMemory>
    requires types { AreTypesBelow (length terms.old) cond.now }
    requires spot { IsSpot terms.old spot }
    requires known { AreKnown terms.old known.old }
    ensures value { IfOk result (Follows (tree_at terms.new) (seen_spot (tree_at terms.old) spot) (tree.on_expansion (condition_of terms.old cond.now).types (seen_spot (tree_at terms.old) spot) (seen_ending ending))) }
    ensures next { IfOk result (IsNextOver terms.new) }
    ensures known { OnOk result (AreKnown terms.new known.new) }
    ensures stays { Stays terms.old terms.new }
{
    let why = why_open(ending);
    if spot.rounds >= 2 {
        return Ok(Next::Open(spot, why));
    }
    let before = copied(terms.allocator(), &spot)?;
    let more = expanded(terms, known, cond, spot)?;
    if is_more(&before, &more) {
        Ok(Next::GoesOn(more))
    } else {
        Ok(Next::Open(before, why))
    }
}

/// The atom on which a node splits, if there is one, and the node. Each formula of the node is judged.
pub fn with_next_atom(terms: &Terms, spot: Spot) -> Result<(Spot, Option<u32>), NoMemory>
    requires { IsSpot terms.now spot }
    ensures seen { IfOk result (λ r. seen_spot (tree_at terms.now) r.0 ≡ seen_spot (tree_at terms.now) spot) }
    ensures spot { IfOk result (λ r. IsSpot terms.now r.0) }
    ensures value { IfOk result (λ r. option_map (tree_at terms.now) r.1 ≡ splitting.next_atom (seen_spot (tree_at terms.now) spot).node) }
    ensures below { IfOk result (λ r. IfSome r.1 (λ a. a < length terms.now)) }
{
    let Spot {
        mut branch,
        had,
        names,
        rounds,
    } = spot;
    let atom = next_atom(terms, &mut branch)?;
    Ok((
        Spot {
            branch,
            had,
            names,
            rounds,
        },
        atom,
    ))
}

// A split, or a round of expansion.
fn on_ending(
    terms: &mut Terms,
    known: &mut KnownForms,
    cond: &Cond,
    spot: Spot,
    ending: Ending,
) -> Result<Next, NoMemory>
    requires types { AreTypesBelow (length terms.old) cond.now }
    requires spot { IsSpot terms.old spot }
    requires known { AreKnown terms.old known.old }
    ensures value { IfOk result (Follows (tree_at terms.new) (seen_spot (tree_at terms.old) spot) (tree.on_atom (condition_of terms.old cond.now).types (seen_spot (tree_at terms.old) spot) (seen_ending ending) (splitting.next_atom (seen_spot (tree_at terms.old) spot).node))) }
    ensures next { IfOk result (IsNextOver terms.new) }
    ensures known { OnOk result (AreKnown terms.new known.new) }
    ensures stays { Stays terms.old terms.new }
{
    let found = with_next_atom(terms, spot)?;
    let (spot, atom) = found;
    match atom {
        Some(a) => split(terms, spot, a),
        None => on_expansion(terms, known, cond, spot, ending),
    }
}

// What becomes of a node whose elimination ends so.
fn by_ending(
    terms: &mut Terms,
    known: &mut KnownForms,
    cond: &Cond,
    spot: Spot,
    ending: Ending,
) -> Result<Next, NoMemory>
    requires types { AreTypesBelow (length terms.old) cond.now }
    requires spot { IsSpot terms.old spot }
    requires known { AreKnown terms.old known.old }
    ensures value { IfOk result (Follows (tree_at terms.new) (seen_spot (tree_at terms.old) spot) (tree.by_ending (condition_of terms.old cond.now).types (seen_spot (tree_at terms.old) spot) (seen_ending ending))) }
    ensures next { IfOk result (IsNextOver terms.new) }
    ensures known { OnOk result (AreKnown terms.new known.new) }
    ensures stays { Stays terms.old terms.new }
{
    match ending {
        Ending::Refuted => Ok(Next::Closed),
        Ending::Consistent => on_ending(terms, known, cond, spot, Ending::Consistent),
        Ending::Crowded => on_ending(terms, known, cond, spot, Ending::Crowded),
        Ending::Wide => on_ending(terms, known, cond, spot, Ending::Wide),
    }
}

// How elimination ends, unless it refutes.
fn unless_refuted(end: Ending) -> Option<Ending>
    ensures { IsUnlessRefuted end result }
{
    match end {
        Ending::Refuted => None,
        Ending::Consistent => Some(Ending::Consistent),
        Ending::Crowded => Some(Ending::Crowded),
        Ending::Wide => Some(Ending::Wide),
    }
}

// How a node's elimination ends, where the node isn't closed: neither by its literals and pending formulas, nor by its classes, nor by
// the elimination itself.
fn ending_of(
    terms: &mut Terms,
    known: &mut KnownForms,
    branch: &Branch,
) -> Result<Option<Ending>, NoMemory>
    requires branch { IsBranch terms.old branch.now }
    requires known { AreKnown terms.old known.old }
    ensures value { IfOk result (IsEnding (seen_branch (tree_at terms.old) branch.now)) }
    ensures known { OnOk result (AreKnown terms.new known.new) }
    ensures stays { Stays terms.old terms.new }
{
    if is_shut(terms, branch)? {
        return Ok(None);
    }
    let here = terms_present(terms, branch)?;
    let labels = classes(terms, branch, &here)?;
    if classes_clash(terms, branch, &here, &labels)? {
        return Ok(None);
    }
    let end = ending_of_elimination(terms, known, branch, &here, &labels)?;
    Ok(unless_refuted(end))
}

/// What becomes of a node, judged anew from its literals and pending formulas. Older numbers name what they named.
pub fn what_follows(
    terms: &mut Terms,
    known: &mut KnownForms,
    cond: &Cond,
    spot: Spot,
) -> Result<Next, NoMemory>
    requires types { AreTypesBelow (length terms.old) cond.now }
    requires spot { IsSpot terms.old spot }
    requires known { AreKnown terms.old known.old }
    ensures value { IfOk result (Follows (tree_at terms.new) (seen_spot (tree_at terms.old) spot) (tree.next (condition_of terms.old cond.now).types (seen_spot (tree_at terms.old) spot))) }
    ensures next { IfOk result (IsNextOver terms.new) }
    ensures known { OnOk result (AreKnown terms.new known.new) }
    ensures stays { Stays terms.old terms.new }
{
    match ending_of(terms, known, &spot.branch)? {
        None => Ok(Next::Closed),
        Some(end) => by_ending(terms, known, cond, spot, end),
    }
}

// The spot of a node to which nothing has come on a path, as a copy.
fn begun_spot(alloc: Global, branch: &Branch) -> Result<Spot, NoMemory>
    ensures seen { (at : ℕ → Term) → IfOk result (λ p. seen_spot at p ≡ begun (seen_branch at branch.now)) }
    ensures spot { (nodes : List Plain) → IsBranch nodes branch.now → IfOk result (IsSpot nodes) }
{
    let branch = copied_branch(branch)?;
    Ok(Spot {
        branch,
        had: bare(alloc),
        names: Vec::new(alloc),
        rounds: 0,
    })
}

/// What becomes of a node in which a search begins. The node is copied only where it isn't closed.
pub fn what_follows_first(
    terms: &mut Terms,
    known: &mut KnownForms,
    cond: &Cond,
    branch: &Branch,
) -> Result<Next, NoMemory>
    requires types { AreTypesBelow (length terms.old) cond.now }
    requires branch { IsBranch terms.old branch.now }
    requires known { AreKnown terms.old known.old }
    ensures value { IfOk result (Follows (tree_at terms.new) (begun (seen_branch (tree_at terms.old) branch.now)) (tree.next (condition_of terms.old cond.now).types (begun (seen_branch (tree_at terms.old) branch.now)))) }
    ensures next { IfOk result (IsNextOver terms.new) }
    ensures known { OnOk result (AreKnown terms.new known.new) }
    ensures stays { Stays terms.old terms.new }
{
    match ending_of(terms, known, branch)? {
        None => Ok(Next::Closed),
        Some(end) => {
            let spot = begun_spot(terms.allocator(), branch)?;
            by_ending(terms, known, cond, spot, end)
        }
    }
}
