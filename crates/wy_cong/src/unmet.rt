//! The pending formulas that one literal more can refute, each beside the atoms of which a literal may do so.
//!
//! A formula that is judged yes stays so, and one that has two undecided members, as an `or` does in a search, is refuted by
//! no single literal. One with an undecided member is refuted by no literal of another atom, and one with open members only
//! by literals of an atom that stands in each of these.
ghost use Rattle.std.specs.Prelude.{◌≡◌, ◌<◌, true, false, Some, map, length, slice_get, IfNone, IfOk, IfSome, OnOk};
ghost use Rattle.wy_check_splits.specs.wy_check_nodes.Judged.{fails};
ghost use Rattle.wy_check_splits.specs.wy_check_nodes.Seen.{AreBelow, IsBranch, seen_branch, seen_formula};
ghost use Rattle.wy_cong.specs.Atoms.{AreAtoms};
ghost use Rattle.wy_cong.specs.Unmet.{meets, HasOpen, HasTwoOpen, IsNeeded, IsSafe, IsSafeBut, IsSelfOrOpen, StaysOpen};
ghost use Rattle.wy_cong.specs.Reached.{AreEnough, AreWithin, Notes, NotesShared};
ghost use Rattle.wy_search_spec.specs.wy_check_spec.judge.Judgement.{judged, of_atom};
ghost use Rattle.wy_search_spec.specs.Splitting as splitting;
ghost use Rattle.wy_search_spec.specs.Splitting.{atoms_in};
ghost use Rattle.wy_term.specs.Nodes.{parts_at, tree_at};
ghost use Rattle.wy_term.specs.Same.{same_term};
ghost use Rattle.wy_search_spec.specs.wy_check_spec.valid.Literals.{any_no};

use crate::atoms::{Atoms, atom_at, list_atoms, no_atoms, place_of_atom};
use wy_check_splits::{
    Branch, fails, has_literal, is_connective, judge, nothing_known, pending_at,
};
use wy_search_spec::judge::Verdict;
use wy_term::{NoMemory, Node, Terms};

/// A pending formula, or its denial, and an atom of which a literal may refute it.
#[derive(Clone, Copy, Debug)]
pub struct Reached {
    pub formula: u32,
    pub holds: bool,
    pub by: u32,
}

/// Whether neither the atom nor its denial stands among the literals.
pub fn is_undecided(terms: &Terms, branch: &Branch, a: u32) -> bool
    requires atom { a < length terms.now }
    requires branch { IsBranch terms.now branch.now }
    ensures value { result ≡ splitting.is_open (of_atom (seen_branch (tree_at terms.now) branch.now).literals (tree_at terms.now a)) }
{
    !has_literal(terms, branch, a, true) && !has_literal(terms, branch, a, false)
}

// The formula itself, if it is an undecided atom.
fn if_undecided(terms: &Terms, branch: &Branch, a: u32) -> Option<u32>
    requires atom { a < length terms.now }
    requires branch { IsBranch terms.now branch.now }
    ensures open { IfSome result (λ c. StaysOpen (seen_branch (tree_at terms.now) branch.now).literals (tree_at terms.now a) (tree_at terms.now c)) }
    ensures below { IfSome result (λ c. c < length terms.now) }
    ensures same { IfSome result (λ c. c ≡ a) }
{
    if is_connective(terms, a) {
        return None;
    }
    if !is_undecided(terms, branch, a) {
        return None;
    }
    Some(a)
}

// The undecided atom that a formula is, or that it denies.
fn open_atom(terms: &Terms, branch: &Branch, f: u32) -> Option<u32>
    requires formula { f < length terms.now }
    requires branch { IsBranch terms.now branch.now }
    ensures open { IfSome result (λ c. StaysOpen (seen_branch (tree_at terms.now) branch.now).literals (tree_at terms.now f) (tree_at terms.now c)) }
    ensures below { IfSome result (λ c. c < length terms.now) }
{
    match terms.node(f) {
        Node::Not(g) => if_undecided(terms, branch, *g),
        _ => if_undecided(terms, branch, f),
    }
}

// Whether this is another term.
fn is_another(terms: &Terms, other: Option<u32>, c: u32) -> bool
    requires other { IfSome other (λ d. d < length terms.now) }
    requires term { c < length terms.now }
    ensures { result ≡ true → IfSome other (λ d. same_term (tree_at terms.now d) (tree_at terms.now c) ≡ false) }
{
    match other {
        Some(d) => !terms.same(d, c),
        None => true,
    }
}

// The formula with a place in the list.
fn member_at(members: &[u32], i: usize) -> u32
    requires { i < length members.now }
    ensures { slice_get members.now i ≡ Some result }
{
    members[i]
}

// The first undecided atom, other than this one, that one of the formulas is or denies.
fn open_among(terms: &Terms, branch: &Branch, members: &[u32], other: Option<u32>) -> Option<u32>
    requires members { AreBelow (length terms.now) members.now }
    requires branch { IsBranch terms.now branch.now }
    requires other { IfSome other (λ d. d < length terms.now) }
    ensures open { IfSome result (λ c. HasOpen (seen_branch (tree_at terms.now) branch.now).literals (parts_at (tree_at terms.now) members.now) (tree_at terms.now c)) }
    ensures below { IfSome result (λ c. c < length terms.now) }
    ensures another { IfSome result (λ c. IfSome other (λ d. same_term (tree_at terms.now d) (tree_at terms.now c) ≡ false)) }
{
    for i in 0..members.len() {
        if let Some(c) = open_atom(terms, branch, member_at(members, i)) {
            if is_another(terms, other, c) {
                return Some(c);
            }
        }
    }
    None
}

// Whether the formulas have two undecided atoms, each of which is a formula or is denied by one. Then one literal more makes
// neither all of them judged no nor all of them judged yes.
fn has_two_open(terms: &Terms, branch: &Branch, members: &[u32]) -> bool
    requires members { AreBelow (length terms.now) members.now }
    requires branch { IsBranch terms.now branch.now }
    ensures { result ≡ true → HasTwoOpen (seen_branch (tree_at terms.now) branch.now).literals (parts_at (tree_at terms.now) members.now) }
{
    match open_among(terms, branch, members, None) {
        Some(c) => open_among(terms, branch, members, Some(c)).is_some(),
        None => false,
    }
}

// Whether a formula with this verdict, or its denial, is judged yes.
fn meets(verdict: Verdict, holds: bool) -> bool
    ensures { result ≡ meets verdict holds }
{
    match verdict {
        Verdict::Yes => holds,
        Verdict::No => !holds,
        Verdict::Open => false,
    }
}

// Whether the formula is an `or` that no literal more refutes, or the denial of such an `and`.
fn is_out_of_reach(terms: &Terms, branch: &Branch, f: u32, holds: bool) -> bool
    requires formula { f < length terms.now }
    requires branch { IsBranch terms.now branch.now }
    ensures { result ≡ true → IsSafe (seen_branch (tree_at terms.now) branch.now).literals (seen_formula (tree_at terms.now) (f, holds)) }
{
    match (terms.node(f), holds) {
        (Node::Or(members), true) => has_two_open(terms, branch, members),
        (Node::And(members), false) => has_two_open(terms, branch, members),
        _ => false,
    }
}

// Whether no literal more of an undecided atom makes a formula with this verdict, or its denial, judged no.
fn is_safe(terms: &Terms, branch: &Branch, f: u32, holds: bool, verdict: Verdict) -> bool
    requires formula { f < length terms.now }
    requires branch { IsBranch terms.now branch.now }
    requires verdict { verdict ≡ judged (seen_branch (tree_at terms.now) branch.now).literals (tree_at terms.now f) }
    ensures { result ≡ true → IsSafe (seen_branch (tree_at terms.now) branch.now).literals (seen_formula (tree_at terms.now) (f, holds)) }
{
    if meets(verdict, holds) {
        return true;
    }
    is_out_of_reach(terms, branch, f, holds)
}

// The undecided atom of a member of an `or`, or of a denied `and`. No literal of another atom refutes these.
fn only_by(terms: &Terms, branch: &Branch, f: u32, holds: bool) -> Option<u32>
    requires formula { f < length terms.now }
    requires branch { IsBranch terms.now branch.now }
    ensures value { IfSome result (λ c. IsSafeBut (seen_branch (tree_at terms.now) branch.now).literals (seen_formula (tree_at terms.now) (f, holds)) (tree_at terms.now c)) }
    ensures below { IfSome result (λ c. c < length terms.now) }
{
    match (terms.node(f), holds) {
        (Node::Or(members), true) => open_among(terms, branch, members, None),
        (Node::And(members), false) => open_among(terms, branch, members, None),
        _ => None,
    }
}

/// Whether a formula with this verdict is judged open.
pub fn is_open(verdict: Verdict) -> bool
    ensures { result ≡ splitting.is_open verdict }
{
    match verdict {
        Verdict::Open => true,
        Verdict::Yes | Verdict::No => false,
    }
}

// The first two of the members that are judged open, or, where there are fewer, the whole formula in their stead.
fn open_members(
    terms: &Terms,
    branch: &Branch,
    f: u32,
    members: &[u32],
) -> Result<(u32, u32), NoMemory>
    requires formula { f < length terms.now }
    requires members { AreBelow (length terms.now) members.now }
    requires branch { IsBranch terms.now branch.now }
    ensures one { IfOk result (λ r. IsSelfOrOpen (seen_branch (tree_at terms.now) branch.now).literals (tree_at terms.now f) (parts_at (tree_at terms.now) members.now) (tree_at terms.now r.0)) }
    ensures other { IfOk result (λ r. IsSelfOrOpen (seen_branch (tree_at terms.now) branch.now).literals (tree_at terms.now f) (parts_at (tree_at terms.now) members.now) (tree_at terms.now r.1)) }
    ensures below { IfOk result (λ r. (r.0 < length terms.now) × (r.1 < length terms.now)) }
{
    let mut known = nothing_known(terms.allocator());
    let mut one = f;
    for i in 0..members.len() {
        let member = member_at(members, i);
        let verdict = judge(terms, branch, &mut known, member)?;
        if !is_open(verdict) {
            continue;
        }
        if one != f {
            return Ok((one, member));
        }
        one = member;
    }
    Ok((one, f))
}

// Two formulas, each of which has the atom of each literal that refutes the formula, or its denial: open members of an `or`,
// or of a denied `and`, and the formula itself where there are fewer than two.
fn needed(terms: &Terms, branch: &Branch, f: u32, holds: bool) -> Result<(u32, u32), NoMemory>
    requires formula { f < length terms.now }
    requires branch { IsBranch terms.now branch.now }
    requires standing { fails (judged (seen_branch (tree_at terms.now) branch.now).literals (tree_at terms.now f)) holds ≡ false }
    ensures one { IfOk result (λ r. IsNeeded (seen_branch (tree_at terms.now) branch.now).literals (seen_formula (tree_at terms.now) (f, holds)) (tree_at terms.now r.0)) }
    ensures other { IfOk result (λ r. IsNeeded (seen_branch (tree_at terms.now) branch.now).literals (seen_formula (tree_at terms.now) (f, holds)) (tree_at terms.now r.1)) }
    ensures below { IfOk result (λ r. (r.0 < length terms.now) × (r.1 < length terms.now)) }
{
    match (terms.node(f), holds) {
        (Node::Or(members), true) => open_members(terms, branch, f, members),
        (Node::And(members), false) => open_members(terms, branch, f, members),
        _ => Ok((f, f)),
    }
}

// The formula once more for each atom that stands in both lists.
fn note_shared(
    terms: &Terms,
    left: &mut Vec<Reached>,
    formula: u32,
    holds: bool,
    found: &Atoms,
    also: &Atoms,
) -> Result<(), NoMemory>
    requires formula { formula < length terms.now }
    requires found { AreAtoms (length terms.now) found.now }
    requires also { AreAtoms (length terms.now) also.now }
    requires within { AreWithin (length terms.now) left.old.items }
    ensures value { OnOk result (NotesShared (tree_at terms.now) (seen_formula (tree_at terms.now) (formula, holds)) (map (tree_at terms.now) found.now.list.items) (map (tree_at terms.now) also.now.list.items) left.old.items left.new.items) }
    ensures within { OnOk result (AreWithin (length terms.now) left.new.items) }
{
    terms.one_number_for_each_term();
    for i in 0..found.list.len() {
        let by = atom_at(found, i);
        if place_of_atom(also, by).is_none() {
            continue;
        }
        left.push(Reached { formula, holds, by })?;
    }
    Ok(())
}

// The formula once more for each atom that stands in both of the needed ones.
fn note_each(
    terms: &Terms,
    left: &mut Vec<Reached>,
    formula: u32,
    holds: bool,
    needed: (u32, u32),
) -> Result<(), NoMemory>
    requires formula { formula < length terms.now }
    requires one { needed.0 < length terms.now }
    requires other { needed.1 < length terms.now }
    requires within { AreWithin (length terms.now) left.old.items }
    ensures value { OnOk result (NotesShared (tree_at terms.now) (seen_formula (tree_at terms.now) (formula, holds)) (atoms_in (tree_at terms.now needed.0)) (atoms_in (tree_at terms.now needed.1)) left.old.items left.new.items) }
    ensures within { OnOk result (AreWithin (length terms.now) left.new.items) }
{
    let mut found = no_atoms(terms.allocator());
    list_atoms(terms, &mut found, needed.0)?;
    let mut also = no_atoms(terms.allocator());
    list_atoms(terms, &mut also, needed.1)?;
    note_shared(terms, left, formula, holds, &found, &also)
}

// Notes a formula, or its denial, with this verdict beside each atom of which a literal may refute it.
fn reach(
    terms: &Terms,
    branch: &Branch,
    left: &mut Vec<Reached>,
    pending: (u32, bool),
    verdict: Verdict,
) -> Result<(), NoMemory>
    requires formula { pending.0 < length terms.now }
    requires branch { IsBranch terms.now branch.now }
    requires verdict { verdict ≡ judged (seen_branch (tree_at terms.now) branch.now).literals (tree_at terms.now pending.0) }
    requires standing { fails verdict pending.1 ≡ false }
    requires within { AreWithin (length terms.now) left.old.items }
    ensures value { OnOk result (Notes (tree_at terms.now) (seen_branch (tree_at terms.now) branch.now).literals (seen_formula (tree_at terms.now) pending) left.old.items left.new.items) }
    ensures within { OnOk result (AreWithin (length terms.now) left.new.items) }
{
    let (formula, holds) = pending;
    if is_safe(terms, branch, formula, holds, verdict) {
        return Ok(());
    }
    if let Some(by) = only_by(terms, branch, formula, holds) {
        left.push(Reached { formula, holds, by })?;
        return Ok(());
    }
    let needed = needed(terms, branch, formula, holds)?;
    note_each(terms, left, formula, holds, needed)
}

/// Pending formulas, in order, each beside an atom, so that a literal more of an undecided atom makes a pending formula judged
/// no exactly where it makes one so beside which that atom stands. There are none where a pending formula is judged no already.
///
/// A formula that is judged yes has no such atom, and neither has an `or` with two undecided members; one with other open
/// members has those that stand in two of these. It takes time linear in the size of the pending formulas.
pub fn unmet(terms: &Terms, branch: &Branch) -> Result<Option<Vec<Reached>>, NoMemory>
    requires { IsBranch terms.now branch.now }
    ensures value { IfOk result (λ o. IfSome o (λ us. AreEnough (tree_at terms.now) (seen_branch (tree_at terms.now) branch.now) us.items)) }
    ensures within { IfOk result (λ o. IfSome o (λ us. AreWithin (length terms.now) us.items)) }
    ensures refuted { IfOk result (λ o. IfNone o (any_no (seen_branch (tree_at terms.now) branch.now).literals (seen_branch (tree_at terms.now) branch.now).pending ≡ true)) }
{
    let mut known = nothing_known(terms.allocator());
    let mut left = Vec::new(terms.allocator());
    for i in 0..branch.pending.len() {
        let pending = pending_at(branch, i);
        let verdict = judge(terms, branch, &mut known, pending.0)?;
        if fails(verdict, pending.1) {
            return Ok(None);
        }
        reach(terms, branch, &mut left, pending, verdict)?;
    }
    Ok(Some(left))
}
