//! The nodes of a certificate's tree that are still to be closed.
ghost use Rattle.std.specs.Prelude.{◌≡◌, ◌<◌, ◌∷◌, [], List, true, length, IfOk};
ghost use Rattle.wy_check_spec.specs.wy_term.Nodes.{Plain, tree_at};
ghost use Rattle.wy_check_spec.specs.judge.Node.{added, denied_one, with_formulas};
ghost use Rattle.wy_check_spec.specs.wy_facts.Seen.{terms_at, AreBelow};
ghost use Rattle.wy_check_nodes.specs.Seen.{seen_branch, IsBranch};
ghost use Rattle.wy_check_nodes.specs.Trail.{nodes_of, second_nodes, IsTrail};

use crate::adding::{add, add_all};
use crate::branch::{Branch, back_to};
use std::alloc::Global;
use std::collections::VecDeque;
use wy_check_spec::{NoMemory, Terms};

/// The second node of a split that waits until the first is closed: how many literals and pending formulas there were at
/// the split, and its atom, which the second node denies.
#[derive(Clone, Copy, Debug, PartialEq, Eq)]
pub struct Waiting {
    pub literals: usize,
    pub pending: usize,
    pub atom: u32,
}

/// The nodes that are still to be closed: the present one, if all aren't closed, and the second ones of splits, next first.
/// A node that waits has the first of the present node's literals and pending formulas, so it takes constant memory.
#[derive(Drop)]
pub struct Trail {
    pub open: bool,
    pub branch: Branch,
    pub waiting: VecDeque<Waiting>,
}

/// One node is to be closed.
pub fn one_node(alloc: Global, branch: Branch) -> Trail
    ensures nodes { (nodes : List Plain) → nodes_of (tree_at nodes) result ≡ seen_branch (tree_at nodes) branch ∷ [] }
    ensures trail { (nodes : List Plain) → IsBranch nodes branch → IsTrail nodes result }
{
    Trail {
        open: true,
        branch,
        waiting: VecDeque::new(alloc),
    }
}

/// The present node is closed, so the next that waits is the present one.
pub fn close(terms: &Terms, trail: Trail) -> Result<Trail, NoMemory>
    requires open { trail.open ≡ true }
    requires trail { IsTrail terms.now trail }
    ensures nodes { IfOk result (λ t. nodes_of (tree_at terms.now) t ≡ second_nodes (tree_at terms.now) trail.branch trail.waiting.items) }
    ensures trail { IfOk result (IsTrail terms.now) }
{
    let mut trail = trail;
    match trail.waiting.pop_front() {
        None => {
            trail.open = false;
            Ok(trail)
        }
        Some(next) => {
            back_to(&mut trail.branch, next.literals, next.pending);
            add(terms, &mut trail.branch, next.atom, false)?;
            Ok(trail)
        }
    }
}

/// The present node has these formulas more.
pub fn grow(terms: &Terms, trail: Trail, formulas: &[u32]) -> Result<Trail, NoMemory>
    requires open { trail.open ≡ true }
    requires trail { IsTrail terms.now trail }
    requires formulas { AreBelow (length terms.now) formulas.now }
    ensures nodes { IfOk result (λ t. nodes_of (tree_at terms.now) t ≡ with_formulas (seen_branch (tree_at terms.now) trail.branch) (terms_at terms.now formulas.now) ∷ second_nodes (tree_at terms.now) trail.branch trail.waiting.items) }
    ensures trail { IfOk result (IsTrail terms.now) }
{
    let mut trail = trail;
    add_all(terms, &mut trail.branch, formulas)?;
    Ok(trail)
}

/// The present node has an atom more, and behind it stands the same node with the atom's denial.
pub fn split(terms: &Terms, trail: Trail, atom: u32) -> Result<Trail, NoMemory>
    requires open { trail.open ≡ true }
    requires trail { IsTrail terms.now trail }
    requires atom { atom < length terms.now }
    ensures nodes { IfOk result (λ t. nodes_of (tree_at terms.now) t ≡ added (seen_branch (tree_at terms.now) trail.branch) (tree_at terms.now atom) ∷ denied_one (seen_branch (tree_at terms.now) trail.branch) (tree_at terms.now atom) ∷ second_nodes (tree_at terms.now) trail.branch trail.waiting.items) }
    ensures trail { IfOk result (IsTrail terms.now) }
{
    let mut trail = trail;
    let second = Waiting {
        literals: trail.branch.literals.len(),
        pending: trail.branch.pending.len(),
        atom,
    };
    trail.waiting.push_front(second)?;
    add(terms, &mut trail.branch, atom, true)?;
    Ok(trail)
}
