//! The atom on which a node splits.
ghost use Rattle.std.specs.Prelude.{◌≡◌, ◌<◌, ◌++◌, [], ◌∷◌, true, Some, map, length, option_map, slice_get, IfOk, IfSome, OnOk};
ghost use Rattle.wy_search_spec.specs.wy_check_spec.judge.Judgement.{judged, of_atom};
ghost use Rattle.wy_check_splits.specs.wy_check_nodes.Seen.{IsBranch, seen_branch, seen_formula};
ghost use Rattle.wy_search_spec.specs.Splitting as splitting;
ghost use Rattle.wy_cong.specs.Atoms.{AreAtoms};
ghost use Rattle.wy_cong.specs.Once.{SameBranch, first_by, once, undecided};
ghost use Rattle.wy_cong.specs.Reached.{AreEnough, AreWithin, IsNearer, IsWithin, forces, seen_unmet};
ghost use Rattle.wy_cong.specs.Unmet.{ArePlain, with_one};
ghost use Rattle.wy_term.specs.Nodes.{tree_at};
ghost use Rattle.wy_search_spec.specs.wy_check_spec.valid.Literals.{any_no, is_no};

use crate::atoms::{Atoms, atom_at, atom_if_there, list_atoms, no_atoms, place_of_atom};
use crate::unmet::{Reached, is_open, is_undecided, unmet};
use wy_check_splits::{Branch, add_literal, back_to, fails, judge, nothing_known, pending_at};
use wy_term::{NoMemory, Terms};

// The formula with a place in the list.
fn unmet_at(left: &[Reached], i: usize) -> Reached
    requires { i < length left.now }
    ensures { slice_get left.now i ≡ Some result }
{
    left[i]
}

// Whether this formula is judged no with one literal more, of the undecided atom beside it. The node is as before afterwards.
fn refutes(
    terms: &Terms,
    branch: &mut Branch,
    unmet: Reached,
    holds: bool,
) -> Result<bool, NoMemory>
    requires within { IsWithin (length terms.now) unmet }
    requires branch { IsBranch terms.now branch.old }
    requires undecided { splitting.is_open (of_atom (seen_branch (tree_at terms.now) branch.old).literals (tree_at terms.now unmet.by)) ≡ true }
    ensures value { IfOk result (λ yes. yes ≡ is_no (judged (with_one (seen_branch (tree_at terms.now) branch.old).literals (tree_at terms.now unmet.by) holds) (seen_unmet (tree_at terms.now) unmet))) }
    ensures same { OnOk result (SameBranch branch.old branch.new) }
    ensures branch { OnOk result (IsBranch terms.now branch.new) }
{
    let literals = branch.literals.len();
    let pending = branch.pending.len();
    add_literal(terms, branch, unmet.by, holds)?;
    let mut known = nothing_known(terms.allocator());
    let verdict = judge(terms, branch, &mut known, unmet.formula)?;
    back_to(branch, literals, pending);
    Ok(fails(verdict, unmet.holds))
}

// Whether the atom is undecided, and one of its values makes the formula that it stands beside judged no.
fn is_forcing(terms: &Terms, branch: &mut Branch, unmet: Reached) -> Result<bool, NoMemory>
    requires within { IsWithin (length terms.now) unmet }
    requires branch { IsBranch terms.now branch.old }
    ensures value { IfOk result (λ yes. yes ≡ forces (tree_at terms.now) (seen_branch (tree_at terms.now) branch.old) unmet) }
    ensures same { OnOk result (SameBranch branch.old branch.new) }
    ensures branch { OnOk result (IsBranch terms.now branch.new) }
{
    if !is_undecided(terms, branch, unmet.by) {
        return Ok(false);
    }
    if refutes(terms, branch, unmet, true)? {
        return Ok(true);
    }
    refutes(terms, branch, unmet, false)
}

// The atoms of all pending formulas, each once.
fn pending_atoms(terms: &Terms, branch: &Branch) -> Result<Atoms, NoMemory>
    requires { IsBranch terms.now branch.now }
    ensures value { IfOk result (λ s. map (tree_at terms.now) s.list.items ≡ once [] (splitting.atoms_of (seen_branch (tree_at terms.now) branch.now).pending)) }
    ensures found { IfOk result (AreAtoms (length terms.now)) }
{
    let mut found = no_atoms(terms.allocator());
    for i in 0..branch.pending.len() {
        let (f, _) = pending_at(branch, i);
        list_atoms(terms, &mut found, f)?;
    }
    Ok(found)
}

// The place of the atom that stands beside this formula, if it comes before this one and is forced by the formula, or else this
// one.
fn nearer(
    terms: &Terms,
    branch: &mut Branch,
    found: &Atoms,
    unmet: Reached,
    place: usize,
) -> Result<usize, NoMemory>
    requires within { IsWithin (length terms.now) unmet }
    requires found { AreAtoms (length terms.now) found.now }
    requires branch { IsBranch terms.now branch.old }
    ensures value { IfOk result (λ j. IsNearer (tree_at terms.now) (seen_branch (tree_at terms.now) branch.old) found.now.list.items unmet place j) }
    ensures same { OnOk result (SameBranch branch.old branch.new) }
    ensures branch { OnOk result (IsBranch terms.now branch.new) }
{
    terms.one_number_for_each_term();
    let Some(i) = place_of_atom(found, unmet.by) else {
        return Ok(place);
    };
    let i = i as usize;
    if i >= place {
        return Ok(place);
    }
    if is_forcing(terms, branch, unmet)? {
        return Ok(i);
    }
    Ok(place)
}

// The first atom of the list that is forced, where these formulas are enough of the pending ones.
fn first_forced(
    terms: &Terms,
    branch: &mut Branch,
    left: &[Reached],
    found: &Atoms,
) -> Result<Option<u32>, NoMemory>
    requires found { AreAtoms (length terms.now) found.now }
    requires plain { ArePlain (map (tree_at terms.now) found.now.list.items) }
    requires branch { IsBranch terms.now branch.old }
    requires left { AreEnough (tree_at terms.now) (seen_branch (tree_at terms.now) branch.old) left.now }
    requires within { AreWithin (length terms.now) left.now }
    ensures value { IfOk result (λ o. option_map (tree_at terms.now) o ≡ first_by (splitting.is_forced (seen_branch (tree_at terms.now) branch.old)) (map (tree_at terms.now) found.now.list.items)) }
    ensures same { OnOk result (SameBranch branch.old branch.new) }
    ensures branch { OnOk result (IsBranch terms.now branch.new) }
    ensures below { IfOk result (λ o. IfSome o (λ a. a < length terms.now)) }
{
    let mut place = found.list.len();
    for i in 0..left.len() {
        let unmet = unmet_at(left, i);
        place = nearer(terms, branch, found, unmet, place)?;
    }
    Ok(atom_if_there(found, place))
}

// The first atom of the list that is undecided.
fn undecided_in(terms: &Terms, branch: &Branch, found: &Atoms) -> Option<u32>
    requires found { AreAtoms (length terms.now) found.now }
    requires branch { IsBranch terms.now branch.now }
    ensures value { option_map (tree_at terms.now) result ≡ first_by (undecided (seen_branch (tree_at terms.now) branch.now)) (map (tree_at terms.now) found.now.list.items) }
    ensures below { IfSome result (λ a. a < length terms.now) }
{
    for i in 0..found.list.len() {
        let a = atom_at(found, i);
        if is_undecided(terms, branch, a) {
            return Some(a);
        }
    }
    None
}

// The first atom of the formula that is undecided.
fn first_undecided(terms: &Terms, branch: &Branch, f: u32) -> Result<Option<u32>, NoMemory>
    requires formula { f < length terms.now }
    requires branch { IsBranch terms.now branch.now }
    ensures value { IfOk result (λ o. option_map (tree_at terms.now) o ≡ splitting.first_undecided (seen_branch (tree_at terms.now) branch.now) (splitting.atoms_in (tree_at terms.now f))) }
    ensures below { IfOk result (λ o. IfSome o (λ a. a < length terms.now)) }
{
    let mut found = no_atoms(terms.allocator());
    list_atoms(terms, &mut found, f)?;
    Ok(undecided_in(terms, branch, &found))
}

// The first undecided atom of the first pending formula that is judged open.
fn first_open(terms: &Terms, branch: &Branch) -> Result<Option<u32>, NoMemory>
    requires { IsBranch terms.now branch.now }
    ensures value { IfOk result (λ o. option_map (tree_at terms.now) o ≡ splitting.first_open (seen_branch (tree_at terms.now) branch.now) (seen_branch (tree_at terms.now) branch.now).pending) }
    ensures below { IfOk result (λ o. IfSome o (λ a. a < length terms.now)) }
{
    let mut known = nothing_known(terms.allocator());
    for i in 0..branch.pending.len() {
        let (f, _) = pending_at(branch, i);
        let verdict = judge(terms, branch, &mut known, f)?;
        if is_open(verdict) {
            return first_undecided(terms, branch, f);
        }
    }
    Ok(None)
}

// The first atom of the pending formulas that is forced, where these are enough of them. Where none is left, none is forced.
fn forced_among(
    terms: &Terms,
    branch: &mut Branch,
    left: &[Reached],
) -> Result<Option<u32>, NoMemory>
    requires branch { IsBranch terms.now branch.old }
    requires left { AreEnough (tree_at terms.now) (seen_branch (tree_at terms.now) branch.old) left.now }
    requires within { AreWithin (length terms.now) left.now }
    ensures value { IfOk result (λ o. option_map (tree_at terms.now) o ≡ splitting.first_forced (seen_branch (tree_at terms.now) branch.old) (splitting.atoms_of (seen_branch (tree_at terms.now) branch.old).pending)) }
    ensures same { OnOk result (SameBranch branch.old branch.new) }
    ensures branch { OnOk result (IsBranch terms.now branch.new) }
    ensures below { IfOk result (λ o. IfSome o (λ a. a < length terms.now)) }
{
    if left.is_empty() {
        return Ok(None);
    }
    let found = pending_atoms(terms, branch)?;
    first_forced(terms, branch, left, &found)
}

// The first atom of the pending formulas that is forced, where one of these is judged no: the first that is undecided.
fn forced_by_any(terms: &Terms, branch: &Branch) -> Result<Option<u32>, NoMemory>
    requires branch { IsBranch terms.now branch.now }
    requires refuted { any_no (seen_branch (tree_at terms.now) branch.now).literals (seen_branch (tree_at terms.now) branch.now).pending ≡ true }
    ensures value { IfOk result (λ o. option_map (tree_at terms.now) o ≡ splitting.first_forced (seen_branch (tree_at terms.now) branch.now) (splitting.atoms_of (seen_branch (tree_at terms.now) branch.now).pending)) }
    ensures below { IfOk result (λ o. IfSome o (λ a. a < length terms.now)) }
{
    let found = pending_atoms(terms, branch)?;
    Ok(undecided_in(terms, branch, &found))
}

// The first atom of the pending formulas that is forced.
fn forced_atom(terms: &Terms, branch: &mut Branch) -> Result<Option<u32>, NoMemory>
    requires { IsBranch terms.now branch.old }
    ensures value { IfOk result (λ o. option_map (tree_at terms.now) o ≡ splitting.first_forced (seen_branch (tree_at terms.now) branch.old) (splitting.atoms_of (seen_branch (tree_at terms.now) branch.old).pending)) }
    ensures same { OnOk result (SameBranch branch.old branch.new) }
    ensures branch { OnOk result (IsBranch terms.now branch.new) }
    ensures below { IfOk result (λ o. IfSome o (λ a. a < length terms.now)) }
{
    match unmet(terms, branch)? {
        Some(left) => forced_among(terms, branch, &left),
        None => forced_by_any(terms, branch),
    }
}

/// The atom on which the node splits, if there is one: of the atoms of its pending formulas, in their order, the first
/// undecided one that has a value by which a pending formula is judged no; where there is none, the first undecided atom of
/// the first pending formula that is judged open. The node is as before afterwards.
///
/// In time linear in the size of the pending formulas, and besides, for each atom of which a literal may refute a pending
/// formula, in the size of that formula: none for a formula that is judged yes and for an `or` with two open members that
/// have no atom in common. An atom that comes after one that is known to be forced costs constant time.
pub fn next_atom(terms: &Terms, branch: &mut Branch) -> Result<Option<u32>, NoMemory>
    requires { IsBranch terms.now branch.old }
    ensures value { IfOk result (λ o. option_map (tree_at terms.now) o ≡ splitting.next_atom (seen_branch (tree_at terms.now) branch.old)) }
    ensures same { OnOk result (SameBranch branch.old branch.new) }
    ensures branch { OnOk result (IsBranch terms.now branch.new) }
    ensures below { IfOk result (λ o. IfSome o (λ a. a < length terms.now)) }
{
    if let Some(a) = forced_atom(terms, branch)? {
        return Ok(Some(a));
    }
    first_open(terms, branch)
}
