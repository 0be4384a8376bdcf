//! What literals say of an atom, and of a connective of few atoms.
ghost use Rattle.std.specs.Prelude.{◌≡◌, ◌<◌, length, IfSome};
ghost use Rattle.wy_check_spec.specs.wy_term.Nodes.{tree_at, parts_at};
ghost use Rattle.wy_check_spec.specs.judge.Judgement.{turned, of_atom, judged, judged_all, judged_any};
ghost use Rattle.wy_check_nodes.specs.Seen.{seen_branch, IsBranch, AreBelow};

use crate::branch::{Branch, has_literal};
use crate::connectives::is_connective;
use crate::verdicts::{fails, join, meet, turn};
use wy_check_spec::judge::Verdict;
use wy_check_spec::{Node, Terms};

/// What the literals of a node say of an atom, in constant time on average.
pub fn of_atom(terms: &Terms, branch: &Branch, atom: u32) -> Verdict
    requires atom { atom < length terms.now }
    requires branch { IsBranch terms.now branch.now }
    ensures { result ≡ of_atom (seen_branch (tree_at terms.now) branch.now).literals (tree_at terms.now atom) }
{
    if has_literal(terms, branch, atom, true) {
        Verdict::Yes
    } else if has_literal(terms, branch, atom, false) {
        Verdict::No
    } else {
        Verdict::Open
    }
}

// How many atoms a connective of few atoms may have.
const FEW: usize = 4;

// What the literals say of a formula, unless it is a connective.
fn atom_at(terms: &Terms, branch: &Branch, f: u32) -> Option<Verdict>
    requires formula { f < length terms.now }
    requires branch { IsBranch terms.now branch.now }
    ensures { IfSome result (λ v. v ≡ judged (seen_branch (tree_at terms.now) branch.now).literals (tree_at terms.now f)) }
{
    if is_connective(terms, f) {
        None
    } else {
        Some(of_atom(terms, branch, f))
    }
}

// What the literals say of the `and` of these formulas, if they are few and none is a connective.
fn all_of_atoms(terms: &Terms, branch: &Branch, members: &[u32]) -> Option<Verdict>
    requires members { AreBelow (length terms.now) members.now }
    requires branch { IsBranch terms.now branch.now }
    ensures { IfSome result (λ v. v ≡ judged_all (seen_branch (tree_at terms.now) branch.now).literals (parts_at (tree_at terms.now) members.now)) }
{
    if members.len() > FEW {
        return None;
    }
    let mut verdict = Verdict::Yes;
    let mut left = members.len();
    while left > 0 {
        left -= 1;
        let Some(v) = atom_at(terms, branch, members[left]) else {
            return None;
        };
        if fails(v, true) {
            return Some(Verdict::No);
        }
        verdict = meet(v, verdict);
    }
    Some(verdict)
}

// What the literals say of the `or` of these formulas, if they are few and none is a connective.
fn any_of_atoms(terms: &Terms, branch: &Branch, members: &[u32]) -> Option<Verdict>
    requires members { AreBelow (length terms.now) members.now }
    requires branch { IsBranch terms.now branch.now }
    ensures { IfSome result (λ v. v ≡ judged_any (seen_branch (tree_at terms.now) branch.now).literals (parts_at (tree_at terms.now) members.now)) }
{
    if members.len() > FEW {
        return None;
    }
    let mut verdict = Verdict::No;
    let mut left = members.len();
    while left > 0 {
        left -= 1;
        let Some(v) = atom_at(terms, branch, members[left]) else {
            return None;
        };
        if fails(v, false) {
            return Some(Verdict::Yes);
        }
        verdict = join(v, verdict);
    }
    Some(verdict)
}

// What the literals say of the denial of a formula, unless the formula is a connective.
fn denied_atom(terms: &Terms, branch: &Branch, f: u32) -> Option<Verdict>
    requires formula { f < length terms.now }
    requires branch { IsBranch terms.now branch.now }
    ensures { IfSome result (λ v. v ≡ turned (judged (seen_branch (tree_at terms.now) branch.now).literals (tree_at terms.now f))) }
{
    match atom_at(terms, branch, f) {
        Some(v) => Some(turn(v)),
        None => None,
    }
}

/// What the literals say of a formula, if it is an atom or a connective of few atoms, in constant time on average.
pub fn of_few(terms: &Terms, branch: &Branch, f: u32) -> Option<Verdict>
    requires formula { f < length terms.now }
    requires branch { IsBranch terms.now branch.now }
    ensures { IfSome result (λ v. v ≡ judged (seen_branch (tree_at terms.now) branch.now).literals (tree_at terms.now f)) }
{
    match terms.node(f) {
        Node::Not(g) => denied_atom(terms, branch, *g),
        Node::And(members) => all_of_atoms(terms, branch, members),
        Node::Or(members) => any_of_atoms(terms, branch, members),
        _ => Some(of_atom(terms, branch, f)),
    }
}
