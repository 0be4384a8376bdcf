//! Whether a term stands in an equation.
ghost use Rattle.std.specs.Prelude.{◌≡◌, ◌<◌, ◌||◌, length, IfOk};
ghost use Rattle.wy_facts.specs.Seen.{AreBelow};
ghost use Rattle.wy_check_nodes.specs.Seen.{seen_branch, IsBranch};
ghost use Rattle.wy_cong.specs.wy_search_spec.Expansion as search;
ghost use Rattle.wy_check_splits.specs.Walk.{any_over};
ghost use Rattle.wy_search_facts.specs.About.{equates, equates_in, stands_in};
ghost use Rattle.wy_term.specs.Nodes.{tree_at};
ghost use Rattle.wy_term.specs.Term.{Term};

use std::collections::BTreeSet;
use wy_check_nodes::Branch;
use wy_check_splits::{put_all, put_members};
use wy_term::{NoMemory, Node, Terms};
use wy_term_subst::parts_of;

// ---- in one term

// Whether a term is this one; its parts are to be looked at.
fn look(terms: &Terms, k: u32, v: u32, todo: &mut BTreeSet<u32>) -> Result<bool, NoMemory>
    requires term { k < length terms.now }
    requires inner { v < length terms.now }
    requires todo { AreBelow (length terms.now) todo.old.keys }
    ensures value { IfOk result (λ yes. (yes || any_over (stands_in (tree_at terms.now) (tree_at terms.now v)) todo.new.keys) ≡ (stands_in (tree_at terms.now) (tree_at terms.now v) k || any_over (stands_in (tree_at terms.now) (tree_at terms.now v)) todo.old.keys)) }
    ensures todo { IfOk result (λ _. AreBelow (length terms.now) todo.new.keys) }
{
    let node = terms.node(k);
    let parts = parts_of(terms.allocator(), node)?;
    put_all(todo, &parts)?;
    Ok(terms.same(k, v))
}

// Whether a term stands in another one. It works on a set of the terms that are still to be looked at.
fn stands_in(terms: &Terms, root: u32, v: u32) -> Result<bool, NoMemory>
    requires term { root < length terms.now }
    requires inner { v < length terms.now }
    ensures { IfOk result (λ yes. yes ≡ stands_in (tree_at terms.now) (tree_at terms.now v) root) }
{
    let mut todo = BTreeSet::new(terms.allocator());
    put_all(&mut todo, &[root])?;
    for _turn in 0..u64::MAX {
        match todo.pop_last() {
            Some(k) => {
                if look(terms, k, v, &mut todo)? {
                    return Ok(true);
                }
            }
            None => return Ok(false),
        }
    }
    Err(NoMemory)
}

// ---- in the equations of a node

// Whether this is an equation in which the term stands.
fn equates(terms: &Terms, k: u32, v: u32) -> Result<bool, NoMemory>
    requires term { k < length terms.now }
    requires inner { v < length terms.now }
    ensures { IfOk result (λ yes. yes ≡ equates (tree_at terms.now) (tree_at terms.now v) k) }
{
    match terms.node(k) {
        Node::Equal(_, _) => stands_in(terms, k, v),
        _ => Ok(false),
    }
}

// The same; the parts of the first are to be looked at.
fn look_for_equation(
    terms: &Terms,
    k: u32,
    v: u32,
    todo: &mut BTreeSet<u32>,
) -> Result<bool, NoMemory>
    requires term { k < length terms.now }
    requires inner { v < length terms.now }
    requires todo { AreBelow (length terms.now) todo.old.keys }
    ensures value { IfOk result (λ yes. (yes || any_over (equates_in (tree_at terms.now) (tree_at terms.now v)) todo.new.keys) ≡ (equates_in (tree_at terms.now) (tree_at terms.now v) k || any_over (equates_in (tree_at terms.now) (tree_at terms.now v)) todo.old.keys)) }
    ensures todo { IfOk result (λ _. AreBelow (length terms.now) todo.new.keys) }
{
    let is_one = equates(terms, k, v)?;
    let node = terms.node(k);
    let parts = parts_of(terms.allocator(), node)?;
    put_all(todo, &parts)?;
    Ok(is_one)
}

// The terms of a node's literals and pending formulas.
fn everything(terms: &Terms, branch: &Branch) -> Result<BTreeSet<u32>, NoMemory>
    requires { IsBranch terms.now branch.now }
    ensures value { (v : Term) → IfOk result (λ s. any_over (equates_in (tree_at terms.now) v) s.keys ≡ search.in_equation (search.everything (seen_branch (tree_at terms.now) branch.now)) v) }
    ensures below { IfOk result (λ s. AreBelow (length terms.now) s.keys) }
{
    let mut todo = BTreeSet::new(terms.allocator());
    put_members(&mut todo, &branch.pending)?;
    put_members(&mut todo, &branch.literals)?;
    Ok(todo)
}

/// Whether the term stands in an equation of the node. It works on a set of the terms that are still to be looked at, and
/// takes time n log n in how many terms the node is made of and their parts, each counted once, and as much again in those of
/// each equation.
pub fn in_equation(terms: &Terms, branch: &Branch, v: u32) -> Result<bool, NoMemory>
    requires branch { IsBranch terms.now branch.now }
    requires term { v < length terms.now }
    ensures { IfOk result (λ yes. yes ≡ search.in_equation (search.everything (seen_branch (tree_at terms.now) branch.now)) (tree_at terms.now v)) }
{
    let mut todo = everything(terms, branch)?;
    for _turn in 0..u64::MAX {
        match todo.pop_last() {
            Some(k) => {
                if look_for_equation(terms, k, v, &mut todo)? {
                    return Ok(true);
                }
            }
            None => return Ok(false),
        }
    }
    Err(NoMemory)
}
