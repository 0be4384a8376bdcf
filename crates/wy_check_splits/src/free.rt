//! Whether a name stands free in a term.
ghost use Rattle.std.specs.Prelude.{◌≡◌, ◌<◌, ◌||◌, length, IfOk};
ghost use Rattle.wy_check_nodes.specs.wy_term.Nodes.{plain, tree_at};
ghost use Rattle.wy_check_nodes.specs.wy_facts.Seen.{AreBelow};
ghost use Rattle.wy_check_splits.specs.Free.{binds_it, is_it, open_parts, stands_free};
ghost use Rattle.wy_check_splits.specs.Walk.{any_over, free_in};

use crate::todo::put_all;
use std::alloc::{AllocError, Global};
use std::collections::BTreeSet;
use wy_check_nodes::{NoMemory, Node, Terms, parts_of};
use wy_data::Name;

// Whether a node is this name.
fn is_name(node: &Node, word: &Name, number: u128) -> bool
    ensures { result ≡ is_it word.now number (plain node.now).symbol }
{
    match node {
        Node::IntName(other, n) => word.is(other) && number == *n,
        _ => false,
    }
}

// Whether a node binds this name.
fn is_binder(node: &Node, word: &Name, number: u128) -> bool
    ensures { result ≡ binds_it word.now number (plain node.now).symbol }
{
    match node {
        Node::All(q) | Node::Some(q) => q.word.is(word) && q.number == number,
        _ => false,
    }
}

// The parts of a node in which the name may stand free.
fn open_parts(alloc: Global, node: &Node, word: &Name, number: u128) -> Result<Vec<u32>, AllocError>
    ensures { IfOk result (λ ks. ks.items ≡ open_parts word.now number (plain node.now)) }
{
    let mut parts = parts_of(alloc, node)?;
    if is_binder(node, word, number) {
        parts.truncate(2);
    }
    Ok(parts)
}

// Whether a term is the name; where it isn't, its parts are to be looked at.
fn look(
    terms: &Terms,
    t: u32,
    word: &Name,
    number: u128,
    todo: &mut BTreeSet<u32>,
) -> Result<bool, NoMemory>
    requires term { t < length terms.now }
    requires todo { AreBelow (length terms.now) todo.old.keys }
    ensures value { IfOk result (λ yes. (yes || any_over (free_in (tree_at terms.now) word.now number) todo.new.keys) ≡ (free_in (tree_at terms.now) word.now number t || any_over (free_in (tree_at terms.now) word.now number) todo.old.keys)) }
    ensures todo { IfOk result (λ _. AreBelow (length terms.now) todo.new.keys) }
{
    let node = terms.node(t);
    let parts = open_parts(terms.allocator(), node, word, number)?;
    put_all(todo, &parts)?;
    Ok(is_name(node, word, number))
}

/// Whether an Int name stands free in a term. It works on a set of the terms that are still to be looked at, and takes time n
/// log n in how many terms the term is made of and their parts, each counted once.
pub fn is_free(terms: &Terms, term: u32, word: &Name, number: u128) -> Result<bool, NoMemory>
    requires { term < length terms.now }
    ensures { IfOk result (λ yes. yes ≡ stands_free word.now number (tree_at terms.now term)) }
{
    let mut todo = BTreeSet::new(terms.allocator());
    put_all(&mut todo, &[term])?;
    for _turn in 0..u64::MAX {
        match todo.pop_last() {
            Some(t) => {
                if look(terms, t, word, number, &mut todo)? {
                    return Ok(true);
                }
            }
            None => return Ok(false),
        }
    }
    Err(NoMemory)
}
