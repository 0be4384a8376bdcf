//! What a formula adds to a node.
ghost use Rattle.std.specs.Prelude.{◌≡◌, ◌<◌, ◌++◌, ◌∷◌, [], ℕ, List, true, false, if◌then◌else◌, map, length, All, IfOk, OnOk};
ghost use Rattle.wy_check_spec.specs.wy_term.Nodes.{Plain, tree_at};
ghost use Rattle.wy_check_spec.specs.wy_term.Term.{Term};
ghost use Rattle.wy_check_spec.specs.judge.Node as node;
ghost use Rattle.wy_check_spec.specs.wy_term.Condition.{condition_of};
ghost use Rattle.wy_check_spec.specs.judge.Node.{with_atom, added, added_denial, denied_one, with_formulas, first_node};
ghost use Rattle.wy_check_nodes.specs.Seen.{seen_branch, seen_formula, signed, is_denied, AreOver, IsBranch, AreBelow, Extends};
ghost use Rattle.wy_check_nodes.specs.Tasks.{tasks_of, after_one, after_all};

use crate::branch::{Branch, add_literal, add_pending};
use crate::connectives::is_atom;
use indexmap::IndexSet;
use std::alloc::Global;
use std::collections::VecDeque;
use wy_check_spec::{Cond, NoMemory, Node, Terms};

// Formulas that are to be added, each a formula's number and whether it holds, next first.
type Tasks = VecDeque<(u32, bool)>;

// An atom or its denial as a literal; another formula that is taken apart no further, or its denial, as pending.
fn settle(terms: &Terms, branch: &mut Branch, f: u32, holds: bool) -> Result<(), NoMemory>
    requires formula { f < length terms.now }
    requires branch { IsBranch terms.now branch.old }
    requires bare { holds ≡ true → is_denied (tree_at terms.now f) ≡ false }
    ensures value { OnOk result (seen_branch (tree_at terms.now) branch.new ≡ with_atom (seen_branch (tree_at terms.now) branch.old) (tree_at terms.now f) holds (seen_formula (tree_at terms.now) (f, holds))) }
    ensures branch { OnOk result (IsBranch terms.now branch.new) }
    ensures grows { OnOk result (Extends branch.old branch.new) }
{
    if is_atom(terms, f) {
        add_literal(terms, branch, f, holds)
    } else {
        add_pending(terms, branch, f, holds)
    }
}

// These formulas first, or the denials of these.
fn with_members(tasks: Tasks, members: &[u32], holds: bool) -> Result<Tasks, NoMemory>
    ensures { IfOk result (λ ts. ts.items ≡ tasks_of holds members.now ++ tasks.items) }
{
    let mut tasks = tasks;
    let mut left = members.len();
    while left > 0 {
        left -= 1;
        tasks.push_front((members[left], holds))?;
    }
    Ok(tasks)
}

// The denial of a formula, which is taken apart where the formula is an `or`.
fn take_denied(terms: &Terms, branch: &mut Branch, tasks: Tasks, f: u32) -> Result<Tasks, NoMemory>
    requires formula { f < length terms.now }
    requires branch { IsBranch terms.now branch.old }
    requires tasks { AreOver (length terms.now) tasks.items }
    ensures value { IfOk result (λ ts. after_all (tree_at terms.now) (seen_branch (tree_at terms.now) branch.new) ts.items ≡ after_all (tree_at terms.now) (added_denial (seen_branch (tree_at terms.now) branch.old) (tree_at terms.now f)) tasks.items) }
    ensures branch { OnOk result (IsBranch terms.now branch.new) }
    ensures grows { OnOk result (Extends branch.old branch.new) }
    ensures tasks { IfOk result (λ ts. AreOver (length terms.now) ts.items) }
{
    match terms.node(f) {
        Node::Or(members) => with_members(tasks, members, false),
        _ => {
            settle(terms, branch, f, false)?;
            Ok(tasks)
        }
    }
}

// A formula that holds.
fn take_true(terms: &Terms, branch: &mut Branch, tasks: Tasks, f: u32) -> Result<Tasks, NoMemory>
    requires formula { f < length terms.now }
    requires branch { IsBranch terms.now branch.old }
    requires tasks { AreOver (length terms.now) tasks.items }
    ensures value { IfOk result (λ ts. after_all (tree_at terms.now) (seen_branch (tree_at terms.now) branch.new) ts.items ≡ after_all (tree_at terms.now) (added (seen_branch (tree_at terms.now) branch.old) (tree_at terms.now f)) tasks.items) }
    ensures branch { OnOk result (IsBranch terms.now branch.new) }
    ensures grows { OnOk result (Extends branch.old branch.new) }
    ensures tasks { IfOk result (λ ts. AreOver (length terms.now) ts.items) }
{
    match terms.node(f) {
        Node::And(members) => with_members(tasks, members, true),
        Node::Not(g) => take_denied(terms, branch, tasks, *g),
        _ => {
            settle(terms, branch, f, true)?;
            Ok(tasks)
        }
    }
}

// One formula more to be added first.
fn with_task(tasks: Tasks, f: u32, holds: bool) -> Result<Tasks, NoMemory>
    ensures { IfOk result (λ ts. ts.items ≡ (f, holds) ∷ tasks.items) }
{
    let mut tasks = tasks;
    tasks.push_front((f, holds))?;
    Ok(tasks)
}

// A formula that fails.
fn take_false(terms: &Terms, branch: &mut Branch, tasks: Tasks, f: u32) -> Result<Tasks, NoMemory>
    requires formula { f < length terms.now }
    requires branch { IsBranch terms.now branch.old }
    requires tasks { AreOver (length terms.now) tasks.items }
    ensures value { IfOk result (λ ts. after_all (tree_at terms.now) (seen_branch (tree_at terms.now) branch.new) ts.items ≡ after_all (tree_at terms.now) (denied_one (seen_branch (tree_at terms.now) branch.old) (tree_at terms.now f)) tasks.items) }
    ensures branch { OnOk result (IsBranch terms.now branch.new) }
    ensures grows { OnOk result (Extends branch.old branch.new) }
    ensures tasks { IfOk result (λ ts. AreOver (length terms.now) ts.items) }
{
    match terms.node(f) {
        Node::Not(g) => with_task(tasks, *g, true),
        Node::Or(members) => with_members(tasks, members, false),
        _ => {
            settle(terms, branch, f, false)?;
            Ok(tasks)
        }
    }
}

// One task done.
fn take(
    terms: &Terms,
    branch: &mut Branch,
    tasks: Tasks,
    f: u32,
    holds: bool,
) -> Result<Tasks, NoMemory>
    requires formula { f < length terms.now }
    requires branch { IsBranch terms.now branch.old }
    requires tasks { AreOver (length terms.now) tasks.items }
    ensures value { IfOk result (λ ts. after_all (tree_at terms.now) (seen_branch (tree_at terms.now) branch.new) ts.items ≡ after_all (tree_at terms.now) (seen_branch (tree_at terms.now) branch.old) ((f, holds) ∷ tasks.items)) }
    ensures branch { OnOk result (IsBranch terms.now branch.new) }
    ensures grows { OnOk result (Extends branch.old branch.new) }
    ensures tasks { IfOk result (λ ts. AreOver (length terms.now) ts.items) }
{
    if holds {
        take_true(terms, branch, tasks, f)
    } else {
        take_false(terms, branch, tasks, f)
    }
}

/// Adds a formula to a node, or the denial of a formula: the members of an `and` and the denied members of a denied `or` one
/// after the other, an atom or its denial as a literal, any other formula as pending. It works on a list of what is still to
/// be added, and takes time linear in the size of what is taken apart, as a tree. For an atom it makes no list.
pub fn add(terms: &Terms, branch: &mut Branch, f: u32, holds: bool) -> Result<(), NoMemory>
    requires formula { f < length terms.now }
    requires branch { IsBranch terms.now branch.old }
    ensures value { OnOk result (seen_branch (tree_at terms.now) branch.new ≡ after_one (seen_branch (tree_at terms.now) branch.old) (tree_at terms.now f) holds) }
    ensures branch { OnOk result (IsBranch terms.now branch.new) }
    ensures grows { OnOk result (Extends branch.old branch.new) }
{
    let none = VecDeque::new(terms.allocator());
    let mut tasks = take(terms, branch, none, f, holds)?;
    for _turn in 0..u64::MAX {
        match tasks.pop_front() {
            Some((g, sign)) => {
                tasks = take(terms, branch, tasks, g, sign)?;
            }
            None => return Ok(()),
        }
    }
    Err(NoMemory)
}

/// Adds these formulas to a node, one after the other.
pub fn add_all(terms: &Terms, branch: &mut Branch, formulas: &[u32]) -> Result<(), NoMemory>
    requires formulas { AreBelow (length terms.now) formulas.now }
    requires branch { IsBranch terms.now branch.old }
    ensures value { OnOk result (seen_branch (tree_at terms.now) branch.new ≡ with_formulas (seen_branch (tree_at terms.now) branch.old) (map (tree_at terms.now) formulas.now)) }
    ensures branch { OnOk result (IsBranch terms.now branch.new) }
    ensures grows { OnOk result (Extends branch.old branch.new) }
{
    for f in formulas {
        add(terms, branch, *f, true)?;
    }
    Ok(())
}

// The node in which nothing is, with room for so many literals.
fn with_room(alloc: Global, room: usize) -> Result<Branch, NoMemory>
    ensures value { (at : ℕ → Term) → IfOk result (λ b. seen_branch at b ≡ node.bare) }
    ensures branch { (nodes : List Plain) → IfOk result (IsBranch nodes) }
{
    Ok(Branch {
        literals: IndexSet::with_capacity(alloc, room)?,
        pending: IndexSet::new(alloc),
    })
}

/// The node in which the certificates of a condition begin: its hypotheses in order, and then its denied goal.
pub fn first_branch(alloc: Global, terms: &Terms, cond: &Cond) -> Result<Branch, NoMemory>
    requires hyps { All (λ h. h < length terms.now) cond.now.hyps.items }
    requires goal { cond.now.goal < length terms.now }
    ensures value { IfOk result (λ b. seen_branch (tree_at terms.now) b ≡ first_node (condition_of terms.now cond.now)) }
    ensures branch { IfOk result (IsBranch terms.now) }
{
    let mut branch = with_room(alloc, cond.hyps.len())?;
    add_all(terms, &mut branch, &cond.hyps)?;
    add(terms, &mut branch, cond.goal, false)?;
    Ok(branch)
}
