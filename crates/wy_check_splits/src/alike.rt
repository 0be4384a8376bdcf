//! Which terms literals show to be equal: those that they join, and those of one head with such arguments.
ghost use Rattle.std.specs.Prelude.{◌≡◌, ◌<◌, ◌||◌, List, length, IfOk};
ghost use Rattle.wy_check_nodes.specs.wy_term.Nodes.{plain, tree_at, parts_at};
ghost use Rattle.wy_check_nodes.specs.wy_term.Same.{same_symbol, same_term};
ghost use Rattle.wy_check_nodes.specs.wy_check_spec.judge.Node.{Literal};
ghost use Rattle.wy_check_nodes.specs.wy_term_subst.Substitution.{renumbered};
ghost use Rattle.wy_check_nodes.specs.wy_facts.Seen.{AreBelow};
ghost use Rattle.wy_check_nodes.specs.wy_check_spec.valid.Literals.{are_joined, arguments_joined, are_alike};
ghost use Rattle.wy_check_splits.specs.Joined.{Notes};

use crate::joined::Joined;
use crate::sorts::{Sort, sort_at};
use wy_check_nodes::{NoMemory, Node, Terms, parts_of, with_parts};

/// Whether two Int terms are joined by two literals, or two Val terms by an equation, in constant time.
pub fn are_joined(terms: &Terms, joined: &Joined, s: u32, t: u32) -> bool
    requires first { s < length terms.now }
    requires second { t < length terms.now }
    ensures { (ls : List Literal) → Notes (tree_at terms.now) (length terms.now) ls joined.now → result ≡ are_joined ls (tree_at terms.now s) (tree_at terms.now t) }
{
    match (sort_at(terms, s), sort_at(terms, t)) {
        (Sort::Int, Sort::Int) => {
            joined.bounds.contains(&(s, t)) && joined.bounds.contains(&(t, s))
        }
        (Sort::Val, Sort::Val) => {
            joined.equations.contains(&(s, t)) || joined.equations.contains(&(t, s))
        }
        _ => false,
    }
}

// Whether two terms are the same or joined.
fn are_equal(terms: &Terms, joined: &Joined, s: u32, t: u32) -> bool
    requires first { s < length terms.now }
    requires second { t < length terms.now }
    ensures { (ls : List Literal) → Notes (tree_at terms.now) (length terms.now) ls joined.now → result ≡ (same_term (tree_at terms.now s) (tree_at terms.now t) || are_joined ls (tree_at terms.now s) (tree_at terms.now t)) }
{
    terms.same(s, t) || are_joined(terms, joined, s, t)
}

// Whether the terms are pairwise the same or joined, where there are as many of both.
fn arguments_joined(terms: &Terms, joined: &Joined, ss: &[u32], ts: &[u32]) -> bool
    requires first { AreBelow (length terms.now) ss.now }
    requires second { AreBelow (length terms.now) ts.now }
    requires many { length ss.now ≡ length ts.now }
    ensures { (ls : List Literal) → Notes (tree_at terms.now) (length terms.now) ls joined.now → result ≡ arguments_joined ls (parts_at (tree_at terms.now) ss.now) (parts_at (tree_at terms.now) ts.now) }
{
    for i in 0..ss.len() {
        if !are_equal(terms, joined, ss[i], ts[i]) {
            return false;
        }
    }
    true
}

// The number of the name that a node binds, or 0.
fn bound_number(node: &Node) -> u128
    ensures { renumbered (plain node.now).symbol result ≡ (plain node.now).symbol }
{
    match node {
        Node::All(q) | Node::Some(q) => q.number,
        _ => 0,
    }
}

// Whether two nodes have one symbol, where the parts of the second are these, as many as the first has.
fn same_head(terms: &Terms, s: &Node, t: &Node, parts: &[u32]) -> Result<bool, NoMemory>
    requires many { length parts.now ≡ length (plain s.now).parts }
    requires parts { parts.now ≡ (plain t.now).parts }
    ensures { IfOk result (λ yes. yes ≡ same_symbol (plain s.now).symbol (plain t.now).symbol) }
{
    let node = with_parts(terms.allocator(), s, bound_number(s), parts)?;
    Ok(node == *t)
}

/// Whether two terms have one head, and their arguments are pairwise the same or joined, in time linear in how many these are.
pub fn are_alike(terms: &Terms, joined: &Joined, s: u32, t: u32) -> Result<bool, NoMemory>
    requires first { s < length terms.now }
    requires second { t < length terms.now }
    ensures { (ls : List Literal) → Notes (tree_at terms.now) (length terms.now) ls joined.now → IfOk result (λ yes. yes ≡ are_alike ls (tree_at terms.now s) (tree_at terms.now t)) }
{
    let alloc = terms.allocator();
    let ss = parts_of(alloc, terms.node(s))?;
    let ts = parts_of(alloc, terms.node(t))?;
    if ss.len() != ts.len() {
        return Ok(false);
    }
    if !same_head(terms, terms.node(s), terms.node(t), &ts)? {
        return Ok(false);
    }
    Ok(arguments_joined(terms, joined, &ss, &ts))
}
