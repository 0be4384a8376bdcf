//! Facts of elements.
ghost use Rattle.std.specs.Prelude.{◌≡◌, ◌<◌, [], ◌∷◌, ℕ, is_some, if◌then◌else◌, length, map, pos, IfOk, OnOk};
ghost use Rattle.wy_facts.specs.Membership.{AreTypesBelow};
ghost use Rattle.wy_facts.specs.Schema.{as_element};
ghost use Rattle.wy_facts.specs.Seen.{AreBelow, Stays};
ghost use Rattle.wy_check_nodes.specs.Seen.{seen_formula, IsBranch};
ghost use Rattle.wy_cong.specs.wy_search_spec.Expansion as search;
ghost use Rattle.wy_search_facts.specs.Adding.{Leads, count, with_numbered, written};
ghost use Rattle.wy_term.specs.Nodes.{tree_at};
ghost use Rattle.wy_term.specs.Same.{same_term};
ghost use Rattle.wy_term.specs.Term.{Number};
ghost use Rattle.wy_cong.specs.wy_check_spec.valid.Membership.{fact_among};

use crate::made::push_fact;
use wy_check_nodes::{Branch, pending_at};
use wy_term::{Cond, NoMemory, Node, Terms};

// ---- elements of an array that is written out

/// How many elements an array has, where it is written out.
pub fn written_count(terms: &Terms, a: u32) -> usize
    requires { a < length terms.now }
    ensures { result ≡ count (written (tree_at terms.now a)) }
{
    match terms.node(a) {
        Node::Array(vs) => vs.len(),
        _ => 0,
    }
}

/// How many elements the array has from which a term reads, where it is written out.
pub fn read_count(terms: &Terms, t: u32) -> usize
    requires { t < length terms.now }
    ensures { result ≡ count (search.read_from (tree_at terms.now t)) }
{
    match terms.node(t) {
        Node::Get(a, _) => written_count(terms, *a),
        _ => 0,
    }
}

// A number as a term.
fn number(terms: &mut Terms, k: usize) -> Result<u32, NoMemory>
    ensures value { IfOk result (λ t. tree_at terms.new t ≡ Number (pos k)) }
    ensures within { IfOk result (λ t. t < length terms.new) }
    ensures stays { Stays terms.old terms.new }
{
    terms.intern(Node::Number(k as i128))
}

// The fact of a read element and a number.
fn push_numbered(
    terms: &mut Terms,
    cond: &Cond,
    facts: &mut Vec<u32>,
    t: u32,
    k: usize,
) -> Result<(), NoMemory>
    requires term { t < length terms.old }
    requires types { AreTypesBelow (length terms.old) cond.now }
    requires facts { AreBelow (length terms.old) facts.old.items }
    ensures value { OnOk result (Leads terms.old facts.old.items terms.new facts.new.items (λ node. search.with_some node (fact_among [] 4 (tree_at terms.old t ∷ Number (pos k) ∷ [])))) }
    ensures stays { Stays terms.old terms.new }
{
    let i = number(terms, k)?;
    push_fact(terms, cond, facts, 4, &[t, i])
}

// Those of so many numbers.
fn push_all_numbered(
    terms: &mut Terms,
    cond: &Cond,
    facts: &mut Vec<u32>,
    t: u32,
    many: usize,
) -> Result<(), NoMemory>
    requires term { t < length terms.old }
    requires types { AreTypesBelow (length terms.old) cond.now }
    requires facts { AreBelow (length terms.old) facts.old.items }
    ensures value { OnOk result (Leads terms.old facts.old.items terms.new facts.new.items (λ node. with_numbered (tree_at terms.old t) node many)) }
    ensures stays { Stays terms.old terms.new }
{
    for k in 0..many {
        push_numbered(terms, cond, facts, t, k)?;
    }
    Ok(())
}

// Those of a term that reads from an array which is written out.
fn push_read(
    terms: &mut Terms,
    cond: &Cond,
    facts: &mut Vec<u32>,
    t: u32,
    holds: bool,
) -> Result<(), NoMemory>
    requires term { t < length terms.old }
    requires types { AreTypesBelow (length terms.old) cond.now }
    requires facts { AreBelow (length terms.old) facts.old.items }
    ensures value { OnOk result (Leads terms.old facts.old.items terms.new facts.new.items (λ node. search.with_elements node (seen_formula (tree_at terms.old) (t, holds)) 0 (search.read_from (seen_formula (tree_at terms.old) (t, holds))))) }
    ensures stays { Stays terms.old terms.new }
{
    if !holds {
        return Ok(());
    }
    let many = read_count(terms, t);
    push_all_numbered(terms, cond, facts, t, many)
}

/// For each element that is read from an array which is written out, a fact for each number of an element.
pub fn push_elements(
    terms: &mut Terms,
    cond: &Cond,
    facts: &mut Vec<u32>,
    found: &Branch,
) -> Result<(), NoMemory>
    requires found { IsBranch terms.old found.now }
    requires types { AreTypesBelow (length terms.old) cond.now }
    requires facts { AreBelow (length terms.old) facts.old.items }
    ensures value { OnOk result (Leads terms.old facts.old.items terms.new facts.new.items (λ node. search.with_all_elements node (map (seen_formula (tree_at terms.old)) found.now.pending.keys))) }
    ensures stays { Stays terms.old terms.new }
{
    for i in 0..found.pending.len() {
        let (t, holds) = pending_at(found, i);
        push_read(terms, cond, facts, t, holds)?;
    }
    Ok(())
}

// ---- pairs of elements

// The fact of two different elements.
fn push_pair(
    terms: &mut Terms,
    cond: &Cond,
    facts: &mut Vec<u32>,
    t: u32,
    u: u32,
    holds: bool,
) -> Result<(), NoMemory>
    requires first { t < length terms.old }
    requires second { u < length terms.old }
    requires types { AreTypesBelow (length terms.old) cond.now }
    requires facts { AreBelow (length terms.old) facts.old.items }
    ensures value { OnOk result (Leads terms.old facts.old.items terms.new facts.new.items (λ node. search.with_pairs_of node (tree_at terms.old t) (seen_formula (tree_at terms.old) (u, holds) ∷ []))) }
    ensures stays { Stays terms.old terms.new }
{
    if !holds {
        return Ok(());
    }
    if terms.same(t, u) {
        return Ok(());
    }
    push_fact(terms, cond, facts, 8, &[t, u])
}

// Those of a term and each of these.
fn push_pairs_of(
    terms: &mut Terms,
    cond: &Cond,
    facts: &mut Vec<u32>,
    t: u32,
    found: &Branch,
) -> Result<(), NoMemory>
    requires term { t < length terms.old }
    requires found { IsBranch terms.old found.now }
    requires types { AreTypesBelow (length terms.old) cond.now }
    requires facts { AreBelow (length terms.old) facts.old.items }
    ensures value { OnOk result (Leads terms.old facts.old.items terms.new facts.new.items (λ node. search.with_pairs_of node (tree_at terms.old t) (map (seen_formula (tree_at terms.old)) found.now.pending.keys))) }
    ensures stays { Stays terms.old terms.new }
{
    for i in 0..found.pending.len() {
        let (u, holds) = pending_at(found, i);
        push_pair(terms, cond, facts, t, u, holds)?;
    }
    Ok(())
}

/// Whether a term reads an element.
pub fn is_element(terms: &Terms, t: u32) -> bool
    requires { t < length terms.now }
    ensures { result ≡ is_some (as_element (tree_at terms.now t)) }
{
    match terms.node(t) {
        Node::Get(_, _) => true,
        _ => false,
    }
}

// Those of a term, if it reads an element, and each of these.
fn push_pairs_with(
    terms: &mut Terms,
    cond: &Cond,
    facts: &mut Vec<u32>,
    t: u32,
    holds: bool,
    found: &Branch,
) -> Result<(), NoMemory>
    requires term { t < length terms.old }
    requires found { IsBranch terms.old found.now }
    requires types { AreTypesBelow (length terms.old) cond.now }
    requires facts { AreBelow (length terms.old) facts.old.items }
    ensures value { OnOk result (Leads terms.old facts.old.items terms.new facts.new.items (λ node. search.with_pairs_of node (seen_formula (tree_at terms.old) (t, holds)) (map (seen_formula (tree_at terms.old)) found.now.pending.keys))) }
    ensures stays { Stays terms.old terms.new }
{
    if !holds {
        return Ok(());
    }
    if !is_element(terms, t) {
        return Ok(());
    }
    push_pairs_of(terms, cond, facts, t, found)
}

/// For each two different elements of one array, that they are equal where their indices are.
pub fn push_pairs(
    terms: &mut Terms,
    cond: &Cond,
    facts: &mut Vec<u32>,
    found: &Branch,
) -> Result<(), NoMemory>
    requires found { IsBranch terms.old found.now }
    requires types { AreTypesBelow (length terms.old) cond.now }
    requires facts { AreBelow (length terms.old) facts.old.items }
    ensures value { OnOk result (Leads terms.old facts.old.items terms.new facts.new.items (λ node. search.with_pairs node (map (seen_formula (tree_at terms.old)) found.now.pending.keys) (map (seen_formula (tree_at terms.old)) found.now.pending.keys))) }
    ensures stays { Stays terms.old terms.new }
{
    for i in 0..found.pending.len() {
        let (t, holds) = pending_at(found, i);
        push_pairs_with(terms, cond, facts, t, holds, found)?;
    }
    Ok(())
}
