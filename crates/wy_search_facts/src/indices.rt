//! The Int terms that are an index.
ghost use Rattle.std.specs.Prelude.{◌≡◌, ◌<◌, ◌||◌, ◌++◌, [], ◌∷◌, List, nat_eq, length, map, IfOk, IfSome, OnOk};
ghost use Rattle.std.specs.HashSet.{contains};
ghost use Rattle.wy_facts.specs.Seen.{AreBelow};
ghost use Rattle.wy_search_facts.specs.Indices.{AreNoted, Notes, WillBeNoted, catches, chosen_by, indexes, indexes_in, is_index_of, is_numbered, open_of};
ghost use Rattle.wy_cong.specs.wy_check_spec.judge.Node.{has_formula};
ghost use Rattle.wy_check_nodes.specs.Seen.{IsBranch, seen_branch, seen_formula};
ghost use Rattle.wy_cong.specs.wy_search_spec.Expansion as search;
ghost use Rattle.wy_cong.specs.wy_search_spec.Standing.{Standing, standing, with_unbound};
ghost use Rattle.wy_check_splits.specs.Walk.{any_over};
ghost use Rattle.wy_term.specs.Nodes.{plain, tree_at};
ghost use Rattle.wy_term.specs.Term.{Term};
ghost use Rattle.wy_cong.specs.wy_check_spec.valid.Ranges.{is_int};

use std::collections::{BTreeSet, HashSet};
use wy_check_nodes::{Branch, pending_at};
use wy_check_splits::{is_free, put_all, put_members};
use wy_cong::standing;
use wy_term::{NoMemory, Node, Terms};
use wy_term_subst::parts_of;

// Whether a term is an Int term.
fn is_int(terms: &Terms, t: u32) -> bool
    requires { t < length terms.now }
    ensures { result ≡ is_int (tree_at terms.now t) }
{
    match terms.node(t) {
        Node::Number(_) | Node::IntName(_, _) | Node::Add(_, _) | Node::Sub(_, _) => true,
        Node::Neg(_) | Node::Mul(_, _) | Node::Div(_, _) | Node::Mod(_, _) => true,
        Node::Num(_) | Node::Len(_) => true,
        _ => false,
    }
}

// ---- in one term

// Whether a term is the index of another one's `get` or `upd`.
fn is_index_of(terms: &Terms, k: u32, t: u32) -> bool
    requires whole { k < length terms.now }
    requires term { t < length terms.now }
    ensures { result ≡ is_index_of (tree_at terms.now t) (tree_at terms.now k) }
{
    match terms.node(k) {
        Node::Get(_, i) => terms.same(*i, t),
        Node::Update(_, i, _) => terms.same(*i, t),
        _ => false,
    }
}

// Whether a quantifier binds a name that stands free in the term.
fn catches(terms: &Terms, node: &Node, t: u32) -> Result<bool, NoMemory>
    requires { t < length terms.now }
    ensures { IfOk result (λ yes. yes ≡ catches (tree_at terms.now t) (plain node.now).symbol) }
{
    match node {
        Node::All(q) => is_free(terms, t, &q.word, q.number),
        Node::Some(q) => is_free(terms, t, &q.word, q.number),
        _ => Ok(false),
    }
}

// The parts of a node in which the term may stand without bound names.
fn open_parts(terms: &Terms, node: &Node, t: u32) -> Result<Vec<u32>, NoMemory>
    requires { t < length terms.now }
    ensures { IfOk result (λ ks. ks.items ≡ open_of (catches (tree_at terms.now t) (plain node.now).symbol) (plain node.now).parts) }
{
    let caught = catches(terms, node, t)?;
    let mut parts = parts_of(terms.allocator(), node)?;
    if caught {
        parts.truncate(2);
    }
    Ok(parts)
}

// Whether the term is the index of another one, whose open parts are to be looked at.
fn look(terms: &Terms, k: u32, t: u32, todo: &mut BTreeSet<u32>) -> Result<bool, NoMemory>
    requires whole { k < length terms.now }
    requires term { t < length terms.now }
    requires todo { AreBelow (length terms.now) todo.old.keys }
    ensures value { IfOk result (λ yes. (yes || any_over (indexes (tree_at terms.now) (tree_at terms.now t)) todo.new.keys) ≡ (indexes (tree_at terms.now) (tree_at terms.now t) k || any_over (indexes (tree_at terms.now) (tree_at terms.now t)) todo.old.keys)) }
    ensures todo { IfOk result (λ _. AreBelow (length terms.now) todo.new.keys) }
{
    let node = terms.node(k);
    let parts = open_parts(terms, node, t)?;
    put_all(todo, &parts)?;
    Ok(is_index_of(terms, k, t))
}

// ---- in a node

// The terms of a node's literals and pending formulas.
fn everything(terms: &Terms, branch: &Branch) -> Result<BTreeSet<u32>, NoMemory>
    requires { IsBranch terms.now branch.now }
    ensures value { (t : Term) → IfOk result (λ s. any_over (indexes (tree_at terms.now) t) s.keys ≡ indexes_in t (search.everything (seen_branch (tree_at terms.now) branch.now))) }
    ensures below { IfOk result (λ s. AreBelow (length terms.now) s.keys) }
{
    let mut todo = BTreeSet::new(terms.allocator());
    put_members(&mut todo, &branch.pending)?;
    put_members(&mut todo, &branch.literals)?;
    Ok(todo)
}

// Whether the term stands as an index in the node without bound names. It works on a set of the terms that are still to be
// looked at.
fn is_index(terms: &Terms, branch: &Branch, t: u32) -> Result<bool, NoMemory>
    requires branch { IsBranch terms.now branch.now }
    requires term { t < length terms.now }
    ensures { IfOk result (λ yes. yes ≡ indexes_in (tree_at terms.now t) (search.everything (seen_branch (tree_at terms.now) branch.now))) }
{
    let mut todo = everything(terms, branch)?;
    for _turn in 0..u64::MAX {
        match todo.pop_last() {
            Some(k) => {
                if look(terms, k, t, &mut todo)? {
                    return Ok(true);
                }
            }
            None => return Ok(false),
        }
    }
    Err(NoMemory)
}

// ---- what may be an index

// The index of a `get` or an `upd`.
fn index_of(terms: &Terms, k: u32) -> Option<u32>
    requires { k < length terms.now }
    ensures value { (t : Term) → is_index_of t (tree_at terms.now k) ≡ is_numbered (tree_at terms.now) result t }
    ensures within { IfSome result (λ i. i < length terms.now) }
{
    match terms.node(k) {
        Node::Get(_, i) => Some(*i),
        Node::Update(_, i, _) => Some(*i),
        _ => None,
    }
}

// Notes a number.
fn note(noted: &mut HashSet<u32>, i: u32) -> Result<(), NoMemory>
    ensures { OnOk result (Notes (contains nat_eq noted.old) (contains nat_eq noted.new) i) }
{
    noted.insert(i)?;
    Ok(())
}

// Notes the index of a term, whose parts are to be looked at.
fn note_index(
    terms: &Terms,
    k: u32,
    noted: &mut HashSet<u32>,
    todo: &mut BTreeSet<u32>,
) -> Result<(), NoMemory>
    requires whole { k < length terms.now }
    requires todo { AreBelow (length terms.now) todo.old.keys }
    ensures told { (ss : List Standing) → WillBeNoted (tree_at terms.now) (length terms.now) (contains nat_eq noted.old) (k ∷ todo.old.keys) ss → OnOk result (WillBeNoted (tree_at terms.now) (length terms.now) (contains nat_eq noted.new) todo.new.keys ss) }
    ensures todo { OnOk result (AreBelow (length terms.now) todo.new.keys) }
{
    terms.one_number_for_each_term();
    let node = terms.node(k);
    let parts = parts_of(terms.allocator(), node)?;
    put_all(todo, &parts)?;
    match index_of(terms, k) {
        Some(i) => note(noted, i),
        None => Ok(()),
    }
}

// The numbers of the terms that are an index in the node, with bound names or without, each by one look at it.
fn noted_indices(terms: &Terms, branch: &Branch) -> Result<HashSet<u32>, NoMemory>
    requires { IsBranch terms.now branch.now }
    ensures { IfOk result (λ s. AreNoted (tree_at terms.now) (length terms.now) (contains nat_eq s) (search.everything (seen_branch (tree_at terms.now) branch.now))) }
{
    let mut noted = HashSet::new(terms.allocator());
    let mut todo = everything(terms, branch)?;
    for _turn in 0..u64::MAX {
        match todo.pop_last() {
            Some(k) => note_index(terms, k, &mut noted, &mut todo)?,
            None => return Ok(noted),
        }
    }
    Err(NoMemory)
}

// ---- the terms

// Whether a term is one of these.
fn is_among(terms: &Terms, names: &[u32], t: u32) -> bool
    requires names { AreBelow (length terms.now) names.now }
    requires term { t < length terms.now }
    ensures { result ≡ has_formula (map (tree_at terms.now) names.now) (tree_at terms.now t) }
{
    for x in names {
        if terms.same(*x, t) {
            return true;
        }
    }
    false
}

// Whether a term is an Int term, and an index or one of these names, where it is told which terms may be an index.
fn is_chosen(
    terms: &Terms,
    branch: &Branch,
    noted: &HashSet<u32>,
    names: &[u32],
    t: u32,
) -> Result<bool, NoMemory>
    requires branch { IsBranch terms.now branch.now }
    requires noted { AreNoted (tree_at terms.now) (length terms.now) (contains nat_eq noted.now) (search.everything (seen_branch (tree_at terms.now) branch.now)) }
    requires names { AreBelow (length terms.now) names.now }
    requires term { t < length terms.now }
    ensures { IfOk result (λ yes. yes ≡ chosen_by (search.everything (seen_branch (tree_at terms.now) branch.now)) (map (tree_at terms.now) names.now) (tree_at terms.now t)) }
{
    if !is_int(terms, t) {
        return Ok(false);
    }
    if is_among(terms, names, t) {
        return Ok(true);
    }
    if !noted.contains(&t) {
        return Ok(false);
    }
    is_index(terms, branch, t)
}

// Lists a term that stands in the node, if it is chosen; a denial isn't an Int term.
fn push_chosen(
    terms: &Terms,
    branch: &Branch,
    noted: &HashSet<u32>,
    names: &[u32],
    made: &mut Vec<u32>,
    t: u32,
    holds: bool,
) -> Result<(), NoMemory>
    requires branch { IsBranch terms.now branch.now }
    requires noted { AreNoted (tree_at terms.now) (length terms.now) (contains nat_eq noted.now) (search.everything (seen_branch (tree_at terms.now) branch.now)) }
    requires names { AreBelow (length terms.now) names.now }
    requires made { AreBelow (length terms.now) made.old.items }
    requires term { t < length terms.now }
    ensures value { OnOk result (map (tree_at terms.now) made.new.items ≡ map (tree_at terms.now) made.old.items ++ search.only_int (search.among (seen_formula (tree_at terms.now) (t, holds) ∷ []) (with_unbound [] (search.indices_in (search.everything (seen_branch (tree_at terms.now) branch.now))) ++ map (tree_at terms.now) names.now))) }
    ensures below { OnOk result (AreBelow (length terms.now) made.new.items) }
{
    if !holds {
        return Ok(());
    }
    if !is_chosen(terms, branch, noted, names, t)? {
        return Ok(());
    }
    made.push(t)?;
    Ok(())
}

/// The Int terms that are an index without bound names, or one of these names, by first appearance. It takes the time of
/// `standing`, and time n log n in how many terms the node is made of and their parts, each counted once; the latter again for
/// each different Int term that is an index, and for each quantifier the time to look for its name in that term.
pub fn index_terms(terms: &Terms, branch: &Branch, names: &[u32]) -> Result<Vec<u32>, NoMemory>
    requires branch { IsBranch terms.now branch.now }
    requires names { AreBelow (length terms.now) names.now }
    ensures value { IfOk result (λ ts. map (tree_at terms.now) ts.items ≡ search.only_int (search.among (standing (seen_branch (tree_at terms.now) branch.now)) (with_unbound [] (search.indices_in (search.everything (seen_branch (tree_at terms.now) branch.now))) ++ map (tree_at terms.now) names.now))) }
    ensures below { IfOk result (λ ts. AreBelow (length terms.now) ts.items) }
{
    let found = standing(terms, branch)?;
    let noted = noted_indices(terms, branch)?;
    let mut made = Vec::new(terms.allocator());
    for i in 0..found.pending.len() {
        let (t, holds) = pending_at(&found, i);
        push_chosen(terms, branch, &noted, names, &mut made, t, holds)?;
    }
    Ok(made)
}
