//! The walk through the tree.
ghost use Rattle.std.specs.Prelude.{◌≡◌, ◌<◌, ◌≤◌, ◌++◌, [], ◌∷◌, ℕ, All, length, map, IfOk, OnOk};
ghost use Rattle.wy_search_bounds.specs.Known.{AreKnown};
ghost use Rattle.wy_facts.specs.Membership.{AreTypesBelow};
ghost use Rattle.wy_facts.specs.Seen.{Stays};
ghost use Rattle.wy_check_nodes.specs.fronts.Front.{IsFront};
ghost use Rattle.wy_search_facts.specs.Seen.{seen_spot, IsSpot};
ghost use Rattle.wy_check_nodes.specs.Seen.{seen_branch, seen_literal, AreOver, IsBranch};
ghost use Rattle.wy_search_facts.specs.wy_search_spec.Expansion as search;
ghost use Rattle.wy_search_facts.specs.wy_search_spec.Tree as tree;
ghost use Rattle.wy_search.specs.Carried.{IsCarried};
ghost use Rattle.wy_search.specs.Seen.{seen_verdict, NamesItsTerms};
ghost use Rattle.wy_search.specs.Turns.{begun, Follows, IsNextOver};
ghost use Rattle.wy_search.specs.Walks.{AreSpots, IsTurnedOver, IsWalk, Leads};
ghost use Rattle.wy_term.specs.Condition.{condition_of};
ghost use Rattle.wy_term.specs.Nodes.{tree_at};

use crate::carried::Carried;
use crate::turning::{Next, what_follows, what_follows_first};
use crate::verdict::{OpenLeaf, Verdict, Why};
use std::collections::VecDeque;
use wy_check_nodes::fronts::{to_first_node, to_hypotheses};
use wy_check_nodes::{Branch, bare, first_branch, nth_literal};
use wy_search_bounds::{KnownForms, forget_from};
use wy_search_facts::Spot;
use wy_term::{Cond, NoMemory, Terms};

/// The leaves that were passed, and the nodes that are to come, next first.
#[derive(Drop)]
pub struct Walk {
    pub leaves: u64,
    pub spots: VecDeque<Spot>,
}

/// What a turn does: the walk ends, or goes on.
#[derive(Drop)]
pub enum Turned {
    Ends(Verdict),
    GoesOn(Walk),
}

// One node more, which comes first.
fn with_spot(spots: VecDeque<Spot>, spot: Spot) -> Result<VecDeque<Spot>, NoMemory>
    ensures { IfOk result (λ ps. ps.items ≡ spot ∷ spots.items) }
{
    let mut spots = spots;
    spots.push_front(spot)?;
    Ok(spots)
}

/// The node in which the search of a condition begins: its hypotheses and its denied goal.
pub fn first_spot(terms: &Terms, cond: &Cond) -> Result<Spot, NoMemory>
    requires hyps { All (λ h. h < length terms.now) cond.now.hyps.items }
    requires goal { cond.now.goal < length terms.now }
    ensures value { IfOk result (λ p. seen_spot (tree_at terms.now) p ≡ tree.first_spot (condition_of terms.now cond.now)) }
    ensures spot { IfOk result (IsSpot terms.now) }
{
    let alloc = terms.allocator();
    let branch = first_branch(alloc, terms, cond)?;
    Ok(Spot {
        branch,
        had: bare(alloc),
        names: Vec::new(alloc),
        rounds: 0,
    })
}

// A literal more, in terms of another list.
fn push_copy(
    own: &mut Terms,
    literals: &mut Vec<(u32, bool)>,
    terms: &Terms,
    atom: u32,
    holds: bool,
) -> Result<(), NoMemory>
    requires atom { atom < length terms.now }
    requires literals { AreOver (length own.old) literals.old.items }
    ensures value { OnOk result (map (seen_literal (tree_at own.new)) literals.new.items ≡ map (seen_literal (tree_at own.old)) literals.old.items ++ seen_literal (tree_at terms.now) (atom, holds) ∷ []) }
    ensures literals { OnOk result (AreOver (length own.new) literals.new.items) }
{
    let copy = own.copy(terms, atom)?;
    literals.push((copy, holds))?;
    Ok(())
}

// An open leaf, in terms of its own.
fn open_leaf(terms: &Terms, branch: &Branch, leaf: u64, why: Why) -> Result<OpenLeaf, NoMemory>
    requires { IsBranch terms.now branch.now }
    ensures leaf { IfOk result (λ o. o.leaf ≡ leaf) }
    ensures why { IfOk result (λ o. o.why ≡ why) }
    ensures literals { IfOk result (λ o. map (seen_literal (tree_at o.terms)) o.literals.items ≡ (seen_branch (tree_at terms.now) branch.now).literals) }
    ensures below { IfOk result (λ o. AreOver (length o.terms) o.literals.items) }
{
    let mut own = Terms::new(terms.allocator());
    let mut literals = Vec::new(terms.allocator());
    for i in 0..branch.literals.len() {
        let (atom, holds) = nth_literal(terms, branch, i);
        push_copy(&mut own, &mut literals, terms, atom, holds)?;
    }
    Ok(OpenLeaf {
        leaf,
        why,
        terms: own,
        literals,
    })
}

// The walk behind a node of which this becomes.
fn behind(
    terms: &Terms,
    leaves: u64,
    budget: u64,
    spots: VecDeque<Spot>,
    next: Next,
) -> Result<Turned, NoMemory>
    requires leaves { leaves < budget }
    requires spots { AreSpots terms.now spots.items }
    requires next { IsNextOver terms.now next }
    ensures value { (p : search.Spot) (n : tree.Next) → Follows (tree_at terms.now) p n next → IfOk result (Leads (tree.follows n leaves p (map (seen_spot (tree_at terms.now)) spots.items)) (tree_at terms.now)) }
    ensures walk { IfOk result (IsTurnedOver terms.now budget) }
{
    match next {
        Next::Closed => Ok(Turned::GoesOn(Walk {
            leaves: leaves + 1,
            spots,
        })),
        Next::Open(spot, why) => {
            let leaf = open_leaf(terms, &spot.branch, leaves + 1, why)?;
            Ok(Turned::Ends(Verdict::Open(leaf)))
        }
        Next::Splits(left, right) => {
            let second = with_spot(spots, right)?;
            let both = with_spot(second, left)?;
            Ok(Turned::GoesOn(Walk {
                leaves,
                spots: both,
            }))
        }
        Next::GoesOn(more) => {
            let spots = with_spot(spots, more)?;
            Ok(Turned::GoesOn(Walk { leaves, spots }))
        }
    }
}

// One turn, where this node comes first: it is closed, or an open leaf, or others come in its place.
fn turn_at(
    terms: &mut Terms,
    known: &mut KnownForms,
    cond: &Cond,
    budget: u64,
    leaves: u64,
    spots: VecDeque<Spot>,
    spot: Spot,
) -> Result<Turned, NoMemory>
    requires types { AreTypesBelow (length terms.old) cond.now }
    requires leaves { leaves ≤ budget }
    requires spots { AreSpots terms.old spots.items }
    requires spot { IsSpot terms.old spot }
    requires known { AreKnown terms.old known.old }
    ensures value { IfOk result (Leads (tree.one_turn (condition_of terms.old cond.now).types budget leaves (seen_spot (tree_at terms.old) spot ∷ map (seen_spot (tree_at terms.old)) spots.items)) (tree_at terms.new)) }
    ensures walk { IfOk result (IsTurnedOver terms.new budget) }
    ensures known { OnOk result (AreKnown terms.new known.new) }
    ensures stays { Stays terms.old terms.new }
{
    if leaves == budget {
        return Ok(Turned::Ends(Verdict::Spent));
    }
    let next = what_follows(terms, known, cond, spot)?;
    behind(terms, leaves, budget, spots, next)
}

// One turn, if a node is left.
fn turn(
    terms: &mut Terms,
    known: &mut KnownForms,
    cond: &Cond,
    budget: u64,
    walk: Walk,
) -> Result<Turned, NoMemory>
    requires types { AreTypesBelow (length terms.old) cond.now }
    requires walk { IsWalk terms.old budget walk }
    requires known { AreKnown terms.old known.old }
    ensures value { IfOk result (Leads (tree.one_turn (condition_of terms.old cond.now).types budget walk.leaves (map (seen_spot (tree_at terms.old)) walk.spots.items)) (tree_at terms.new)) }
    ensures walk { IfOk result (IsTurnedOver terms.new budget) }
    ensures known { OnOk result (AreKnown terms.new known.new) }
    ensures stays { Stays terms.old terms.new }
{
    let Walk { leaves, mut spots } = walk;
    match spots.pop_front() {
        None => Ok(Turned::Ends(Verdict::Found(leaves))),
        Some(spot) => turn_at(terms, known, cond, budget, leaves, spots, spot),
    }
}

// The first turn, at the node in which the search begins.
fn first_turn(
    terms: &mut Terms,
    known: &mut KnownForms,
    cond: &Cond,
    budget: u64,
    branch: &Branch,
) -> Result<Turned, NoMemory>
    requires types { AreTypesBelow (length terms.old) cond.now }
    requires branch { IsBranch terms.old branch.now }
    requires known { AreKnown terms.old known.old }
    ensures value { IfOk result (Leads (tree.one_turn (condition_of terms.old cond.now).types budget 0 (begun (seen_branch (tree_at terms.old) branch.now) ∷ [])) (tree_at terms.new)) }
    ensures walk { IfOk result (IsTurnedOver terms.new budget) }
    ensures known { OnOk result (AreKnown terms.new known.new) }
    ensures stays { Stays terms.old terms.new }
{
    if budget == 0 {
        return Ok(Turned::Ends(Verdict::Spent));
    }
    let next = what_follows_first(terms, known, cond, branch)?;
    behind(terms, 0, budget, VecDeque::new(terms.allocator()), next)
}

// The first turn of a condition's search, at the front of the last one, which it leaves at this condition's hypotheses.
fn begin(
    terms: &mut Terms,
    carried: &mut Carried,
    cond: &Cond,
    budget: u64,
) -> Result<Turned, NoMemory>
    requires hyps { All (λ h. h < length terms.old) cond.now.hyps.items }
    requires goal { cond.now.goal < length terms.old }
    requires types { AreTypesBelow (length terms.old) cond.now }
    requires carried { IsCarried terms.old carried.old }
    ensures value { IfOk result (Leads (tree.one_turn (condition_of terms.old cond.now).types budget 0 (tree.first_spot (condition_of terms.old cond.now) ∷ [])) (tree_at terms.new)) }
    ensures walk { IfOk result (IsTurnedOver terms.new budget) }
    ensures forms { OnOk result (AreKnown terms.new carried.new.forms) }
    ensures front { OnOk result (IsFront terms.old carried.new.front) }
    ensures stays { Stays terms.old terms.new }
{
    let size = to_first_node(terms, &mut carried.front, cond)?;
    let turned = first_turn(
        terms,
        &mut carried.forms,
        cond,
        budget,
        &carried.front.branch,
    )?;
    to_hypotheses(&mut carried.front, size);
    Ok(turned)
}

// The walk, which makes terms.
fn searched(
    terms: &mut Terms,
    carried: &mut Carried,
    cond: &Cond,
    budget: u64,
) -> Result<Verdict, NoMemory>
    requires hyps { All (λ h. h < length terms.old) cond.now.hyps.items }
    requires goal { cond.now.goal < length terms.old }
    requires types { AreTypesBelow (length terms.old) cond.now }
    requires carried { IsCarried terms.old carried.old }
    ensures verdict { IfOk result (λ v. tree.IsVerdict (condition_of terms.old cond.now) budget (seen_verdict v)) }
    ensures within { IfOk result NamesItsTerms }
    ensures forms { OnOk result (AreKnown terms.new carried.new.forms) }
    ensures front { OnOk result (IsFront terms.old carried.new.front) }
    ensures stays { Stays terms.old terms.new }
{
    let mut turned = begin(terms, carried, cond, budget)?;
    for _turn in 0..u64::MAX {
        match turned {
            Turned::Ends(verdict) => return Ok(verdict),
            Turned::GoesOn(walk) => {
                turned = turn(terms, &mut carried.forms, cond, budget, walk)?;
            }
        }
    }
    Err(NoMemory)
}

/// The verdict of the search of a condition, at a budget of leaves. The terms are as before afterwards, at want of memory too.
/// Each node is judged anew; the form of a literal is made once, and for all searches that carry on with the same where it is of terms
/// below the floor. Of the hypotheses that the last condition has too, in front of all others, none is added anew.
pub fn search(
    terms: &mut Terms,
    carried: &mut Carried,
    cond: &Cond,
    budget: u64,
) -> Result<Verdict, NoMemory>
    requires hyps { All (λ h. h < length terms.old) cond.now.hyps.items }
    requires goal { cond.now.goal < length terms.old }
    requires types { AreTypesBelow (length terms.old) cond.now }
    requires carried { IsCarried terms.old carried.old }
    ensures verdict { IfOk result (λ v. tree.IsVerdict (condition_of terms.old cond.now) budget (seen_verdict v)) }
    ensures within { IfOk result NamesItsTerms }
    ensures carried { OnOk result (IsCarried terms.new carried.new) }
    ensures length { length terms.new ≡ length terms.old }
    ensures kept { (t : ℕ) → t < length terms.old → tree_at terms.new t ≡ tree_at terms.old t }
{
    let mark = terms.mark();
    let verdict = searched(terms, carried, cond, budget);
    terms.back_to(mark);
    forget_from(terms.allocator(), &mut carried.forms, terms.len());
    verdict
}
