//! What a chain of terms states: that its ends are equal.
ghost use Rattle.std.specs.Prelude.{◌≡◌, ◌<◌, ◌∷◌, [], ◌||◌, List, length, option_map, IfOk, IfSome};
ghost use Rattle.wy_check_nodes.specs.wy_term.Nodes.{tree_at};
ghost use Rattle.wy_check_nodes.specs.wy_check_spec.judge.Node.{Literal};
ghost use Rattle.wy_check_nodes.specs.wy_facts.Made.{is_at_most, is_equal};
ghost use Rattle.wy_check_nodes.specs.wy_facts.Seen.{terms_at, AreBelow, Stays};
ghost use Rattle.wy_check_nodes.specs.Seen.{seen_branch, IsBranch};
ghost use Rattle.wy_check_nodes.specs.wy_check_spec.valid.Literals.{are_joined, are_alike, is_chain, last_of};
ghost use Rattle.wy_check_nodes.specs.wy_check_spec.valid.Validity.{equality_of, chain_stated};
ghost use Rattle.wy_check_splits.specs.Joined.{Notes};
ghost use Rattle.wy_check_nodes.specs.wy_term.Sorts.{sort_in};

use crate::alike::{are_alike, are_joined};
use crate::joined::{Joined, joined_by};
use crate::sorts::{Sort, sort_at};
use wy_check_nodes::{Branch, NoMemory, Node, Terms};

// Whether a term is joined with the one before it, or alike.
fn is_link(terms: &Terms, joined: &Joined, s: u32, t: u32) -> Result<bool, NoMemory>
    requires first { s < length terms.now }
    requires second { t < length terms.now }
    ensures { (ls : List Literal) → Notes (tree_at terms.now) (length terms.now) ls joined.now → IfOk result (λ yes. yes ≡ (are_joined ls (tree_at terms.now s) (tree_at terms.now t) || are_alike ls (tree_at terms.now s) (tree_at terms.now t))) }
{
    if are_joined(terms, joined, s, t) {
        return Ok(true);
    }
    are_alike(terms, joined, s, t)
}

// Whether each of these terms is joined with the one before it, or alike.
fn is_chain(terms: &Terms, joined: &Joined, first: u32, rest: &[u32]) -> Result<bool, NoMemory>
    requires first { first < length terms.now }
    requires rest { AreBelow (length terms.now) rest.now }
    ensures { (ls : List Literal) → Notes (tree_at terms.now) (length terms.now) ls joined.now → IfOk result (λ yes. yes ≡ is_chain ls (tree_at terms.now first) (terms_at terms.now rest.now)) }
{
    let mut last = first;
    for t in rest {
        if !is_link(terms, joined, last, *t)? {
            return Ok(false);
        }
        last = *t;
    }
    Ok(true)
}

// The last of these terms.
fn last_of(terms: &Terms, first: u32, rest: &[u32]) -> u32
    requires first { first < length terms.now }
    requires rest { AreBelow (length terms.now) rest.now }
    ensures value { tree_at terms.now result ≡ last_of (tree_at terms.now first) (terms_at terms.now rest.now) }
    ensures within { result < length terms.now }
{
    let _terms = terms;
    let mut last = first;
    for t in rest {
        last = *t;
    }
    last
}

// An equation of two Val terms.
fn equation(terms: &mut Terms, s: u32, t: u32) -> Result<Vec<u32>, NoMemory>
    requires first { s < length terms.old }
    requires second { t < length terms.old }
    ensures value { IfOk result (λ fs. terms_at terms.new fs.items ≡ is_equal (tree_at terms.old s) (tree_at terms.old t) ∷ []) }
    ensures within { IfOk result (λ fs. AreBelow (length terms.new) fs.items) }
    ensures stays { Stays terms.old terms.new }
{
    let f = terms.intern(Node::Equal(s, t))?;
    Ok(Vec::from_slice(terms.allocator(), &[f])?)
}

// Two bounds of Int terms.
fn bounds(terms: &mut Terms, s: u32, t: u32) -> Result<Vec<u32>, NoMemory>
    requires first { s < length terms.old }
    requires second { t < length terms.old }
    ensures value { IfOk result (λ fs. terms_at terms.new fs.items ≡ is_at_most (tree_at terms.old s) (tree_at terms.old t) ∷ is_at_most (tree_at terms.old t) (tree_at terms.old s) ∷ []) }
    ensures within { IfOk result (λ fs. AreBelow (length terms.new) fs.items) }
    ensures stays { Stays terms.old terms.new }
{
    let f = terms.intern(Node::AtMost(s, t))?;
    let g = terms.intern(Node::AtMost(t, s))?;
    Ok(Vec::from_slice(terms.allocator(), &[f, g])?)
}

// That two terms of the first one's sort are equal.
fn equality_of(terms: &mut Terms, s: u32, t: u32) -> Result<Option<Vec<u32>>, NoMemory>
    requires first { s < length terms.old }
    requires second { t < length terms.old }
    ensures value { IfOk result (λ o. option_map (λ fs. terms_at terms.new fs.items) o ≡ equality_of (sort_in (tree_at terms.old s)) (tree_at terms.old s) (tree_at terms.old t)) }
    ensures within { IfOk result (λ o. IfSome o (λ fs. AreBelow (length terms.new) fs.items)) }
    ensures stays { Stays terms.old terms.new }
{
    match sort_at(terms, s) {
        Sort::Val => match equation(terms, s, t) {
            Ok(fs) => Ok(Some(fs)),
            Err(e) => Err(e),
        },
        Sort::Int => match bounds(terms, s, t) {
            Ok(fs) => Ok(Some(fs)),
            Err(e) => Err(e),
        },
        Sort::Formula => Ok(None),
    }
}

/// What a chain of terms states, where each is joined by literals with the one before it, or alike: an equation of its ends
/// where they are Val terms, two bounds where they are Int terms. It takes time linear in the number of literals, in the
/// number of terms and in how many arguments they have. Older numbers name what they named.
pub fn chain_stated(
    terms: &mut Terms,
    branch: &Branch,
    chain: &[u32],
) -> Result<Option<Vec<u32>>, NoMemory>
    requires branch { IsBranch terms.old branch.now }
    requires chain { AreBelow (length terms.old) chain.now }
    ensures value { IfOk result (λ o. option_map (λ fs. terms_at terms.new fs.items) o ≡ chain_stated (seen_branch (tree_at terms.old) branch.now).literals (terms_at terms.old chain.now)) }
    ensures within { IfOk result (λ o. IfSome o (λ fs. AreBelow (length terms.new) fs.items)) }
    ensures stays { Stays terms.old terms.new }
{
    match chain {
        [] => Ok(None),
        [first, rest @ ..] => {
            let joined = joined_by(terms, branch)?;
            if !is_chain(terms, &joined, *first, rest)? {
                return Ok(None);
            }
            let last = last_of(terms, *first, rest);
            equality_of(terms, *first, last)
        }
    }
}
