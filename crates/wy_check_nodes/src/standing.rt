//! Pending formulas of which one look tells that they aren't judged no.
//!
//! An `or` isn't where one of its members isn't, nor is the denial of an `and` where one of the denied members isn't.
ghost use Rattle.std.specs.Prelude.{◌≡◌, ◌<◌, true, false, length};
ghost use Rattle.wy_check_spec.specs.judge.Judgement.{judged};
ghost use Rattle.wy_check_nodes.specs.Denied.{HasStanding};
ghost use Rattle.wy_check_nodes.specs.Judged.{fails};
ghost use Rattle.wy_check_nodes.specs.Seen.{seen_branch, IsBranch, AreBelow};
ghost use Rattle.wy_check_spec.specs.wy_term.Nodes.{tree_at, parts_at};

use crate::branch::Branch;
use crate::few::of_few;
use crate::verdicts::fails;
use wy_check_spec::{Node, Terms};

// Whether a formula of few atoms, or its denial, isn't judged no.
fn stands(terms: &Terms, branch: &Branch, f: u32, holds: bool) -> bool
    requires formula { f < length terms.now }
    requires branch { IsBranch terms.now branch.now }
    ensures { result ≡ true → fails (judged (seen_branch (tree_at terms.now) branch.now).literals (tree_at terms.now f)) holds ≡ false }
{
    match of_few(terms, branch, f) {
        Some(verdict) => !fails(verdict, holds),
        None => false,
    }
}

// Whether one of these does so.
fn any_stands(terms: &Terms, branch: &Branch, members: &[u32], holds: bool) -> bool
    requires members { AreBelow (length terms.now) members.now }
    requires branch { IsBranch terms.now branch.now }
    ensures { result ≡ true → HasStanding (seen_branch (tree_at terms.now) branch.now).literals holds (parts_at (tree_at terms.now) members.now) }
{
    for i in 0..members.len() {
        if stands(terms, branch, members[i], holds) {
            return true;
        }
    }
    false
}

/// Whether a formula, or its denial, is seen not to be judged no by a member of few atoms, in time linear in the number of its
/// members on average.
pub fn stands_at_once(terms: &Terms, branch: &Branch, f: u32, holds: bool) -> bool
    requires formula { f < length terms.now }
    requires branch { IsBranch terms.now branch.now }
    ensures { result ≡ true → fails (judged (seen_branch (tree_at terms.now) branch.now).literals (tree_at terms.now f)) holds ≡ false }
{
    match (terms.node(f), holds) {
        (Node::Or(members), true) => any_stands(terms, branch, members, true),
        (Node::And(members), false) => any_stands(terms, branch, members, false),
        _ => false,
    }
}
