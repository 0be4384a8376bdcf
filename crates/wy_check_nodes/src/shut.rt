//! Whether a node can't be.
ghost use Rattle.std.specs.Prelude.{◌≡◌, ◌<◌, ◌&&◌, not, true, length, IfOk};
ghost use Rattle.wy_check_spec.specs.wy_term.Nodes.{tree_at};
ghost use Rattle.wy_check_spec.specs.judge.Node.{has_literal};
ghost use Rattle.wy_check_nodes.specs.Seen.{seen_branch, seen_literal, IsBranch};
ghost use Rattle.wy_check_spec.specs.valid.Literals.{stands_both_ways, is_shut};

use crate::branch::{Branch, has_literal, nth_literal};
use crate::judging::is_refuted;
use wy_check_spec::{NoMemory, Terms};

// Whether a literal is denied, and its atom holds too, in constant time on average.
fn holds_too(terms: &Terms, branch: &Branch, atom: u32, holds: bool) -> bool
    requires atom { atom < length terms.now }
    requires branch { IsBranch terms.now branch.now }
    ensures { result ≡ (not holds && has_literal (seen_branch (tree_at terms.now) branch.now).literals (seen_literal (tree_at terms.now) (atom, true))) }
{
    !holds && has_literal(terms, branch, atom, true)
}

// Whether a literal stands both ways, in time linear in the number of literals. One of the two is denied, so it is enough to
// look at those that are.
fn stands_both_ways(terms: &Terms, branch: &Branch) -> bool
    requires { IsBranch terms.now branch.now }
    ensures { result ≡ stands_both_ways (seen_branch (tree_at terms.now) branch.now).literals (seen_branch (tree_at terms.now) branch.now).literals }
{
    for i in 0..branch.literals.len() {
        let (atom, holds) = nth_literal(terms, branch, i);
        if holds_too(terms, branch, atom, holds) {
            return true;
        }
    }
    false
}

/// Whether a literal of the node stands both ways, or a pending formula is judged no. It takes time linear in the number of
/// literals and in how many formulas the pending ones are made of, each counted once.
pub fn is_shut(terms: &Terms, branch: &Branch) -> Result<bool, NoMemory>
    requires { IsBranch terms.now branch.now }
    ensures { IfOk result (λ yes. yes ≡ is_shut (seen_branch (tree_at terms.now) branch.now)) }
{
    if stands_both_ways(terms, branch) {
        return Ok(true);
    }
    is_refuted(terms, branch)
}
