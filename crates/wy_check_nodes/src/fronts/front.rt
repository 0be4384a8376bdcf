//! The node of the last condition's hypotheses.
ghost use Rattle.std.specs.Prelude.{◌≡◌, ◌<◌, ◌≤◌, ◌-◌, ◌++◌, ◌∷◌, [], List, All, length, take, IfOk, OnOk};
ghost use Rattle.wy_check_nodes.specs.fronts.Front.{IsFirst, IsFront};
ghost use Rattle.wy_check_spec.specs.judge.Node.{first_node};
ghost use Rattle.wy_check_nodes.specs.Seen.{seen_branch, AreBelow, IsBranch};
ghost use Rattle.wy_check_spec.specs.wy_term.Condition.{condition_of};
ghost use Rattle.wy_check_spec.specs.wy_term.Nodes.{Plain, tree_at};

use crate::{Branch, add, back_to, bare};
use std::alloc::Global;
use std::collections::VecDeque;
use wy_check_spec::{Cond, NoMemory, Terms};

/// How many literals and pending formulas a node had.
#[derive(Clone, Copy, Debug, PartialEq, Eq)]
pub struct Size {
    pub literals: usize,
    pub pending: usize,
}

/// Hypotheses, by their numbers and in order, the node that they make one after the other, and how large it was before each of them,
/// that of the last one first.
#[derive(Drop)]
pub struct Front {
    pub branch: Branch,
    pub hyps: Vec<u32>,
    pub sizes: VecDeque<Size>,
}

/// No hypotheses, and the node in which nothing is. It takes no memory.
pub fn no_front(alloc: Global) -> Front
    ensures { (nodes : List Plain) → IsFront nodes result }
{
    Front {
        branch: bare(alloc),
        hyps: Vec::new(alloc),
        sizes: VecDeque::new(alloc),
    }
}

// With how many numbers both lists begin.
fn shared(first: &[u32], second: &[u32]) -> usize
    ensures same { take result first.now ≡ take result second.now }
    ensures first { result ≤ length first.now }
    ensures second { result ≤ length second.now }
{
    let mut count = 0;
    while count < first.len() && count < second.len() {
        if first[count] != second[count] {
            return count;
        }
        count += 1;
    }
    count
}

// ---- less

// Takes the last hypothesis away.
fn without_last(terms: &Terms, front: &mut Front)
    requires some { 0 < length front.old.hyps.items }
    requires front { IsFront terms.now front.old }
    ensures hyps { front.new.hyps.items ≡ take (length front.old.hyps.items - 1) front.old.hyps.items }
    ensures front { IsFront terms.now front.new }
{
    let _terms = terms;
    if let Some(size) = front.sizes.pop_front() {
        back_to(&mut front.branch, size.literals, size.pending);
        front.hyps.truncate(front.sizes.len());
    }
}

// Keeps the first so many hypotheses.
fn keep_first(terms: &Terms, front: &mut Front, count: usize)
    requires count { count ≤ length front.old.hyps.items }
    requires front { IsFront terms.now front.old }
    ensures hyps { front.new.hyps.items ≡ take count front.old.hyps.items }
    ensures front { IsFront terms.now front.new }
{
    let mut left = front.hyps.len();
    while left > count {
        left -= 1;
        without_last(terms, front);
    }
}

// ---- more

fn size_of(branch: &Branch) -> Size
    ensures literals { result.literals ≡ length branch.now.literals.keys }
    ensures pending { result.pending ≡ length branch.now.pending.keys }
{
    Size {
        literals: branch.literals.len(),
        pending: branch.pending.len(),
    }
}

// A hypothesis more.
fn with_hypothesis(terms: &Terms, front: &mut Front, h: u32) -> Result<(), NoMemory>
    requires hypothesis { h < length terms.now }
    requires front { IsFront terms.now front.old }
    ensures hyps { OnOk result (front.new.hyps.items ≡ front.old.hyps.items ++ h ∷ []) }
    ensures front { OnOk result (IsFront terms.now front.new) }
{
    let size = size_of(&front.branch);
    add(terms, &mut front.branch, h, true)?;
    front.sizes.push_front(size)?;
    front.hyps.push(h)?;
    Ok(())
}

// The hypotheses of the list that are missing, of which the first so many are there.
fn with_rest(terms: &Terms, front: &mut Front, hyps: &[u32], count: usize) -> Result<(), NoMemory>
    requires hyps { AreBelow (length terms.now) hyps.now }
    requires count { count ≤ length hyps.now }
    requires same { front.old.hyps.items ≡ take count hyps.now }
    requires front { IsFront terms.now front.old }
    ensures hyps { OnOk result (front.new.hyps.items ≡ hyps.now) }
    ensures front { OnOk result (IsFront terms.now front.new) }
{
    for i in count..hyps.len() {
        with_hypothesis(terms, front, hyps[i])?;
    }
    Ok(())
}

// The front of these hypotheses.
fn go_to(terms: &Terms, front: &mut Front, hyps: &[u32]) -> Result<(), NoMemory>
    requires hyps { AreBelow (length terms.now) hyps.now }
    requires front { IsFront terms.now front.old }
    ensures hyps { OnOk result (front.new.hyps.items ≡ hyps.now) }
    ensures front { OnOk result (IsFront terms.now front.new) }
{
    let count = shared(&front.hyps, hyps);
    keep_first(terms, front, count);
    with_rest(terms, front, hyps, count)
}

// ---- with the denied goal

/// Makes the front's node the one in which the certificates of a condition begin: its hypotheses in order, and then its denied goal.
/// Answers how large it is without the goal. It goes through the hypotheses that the last condition has too, which are compared, and
/// takes besides the time of `add` for each of the others and for the goal.
pub fn to_first_node(terms: &Terms, front: &mut Front, cond: &Cond) -> Result<Size, NoMemory>
    requires hyps { All (λ h. h < length terms.now) cond.now.hyps.items }
    requires goal { cond.now.goal < length terms.now }
    requires front { IsFront terms.now front.old }
    ensures value { OnOk result (seen_branch (tree_at terms.now) front.new.branch ≡ first_node (condition_of terms.now cond.now)) }
    ensures branch { OnOk result (IsBranch terms.now front.new.branch) }
    ensures first { IfOk result (λ size. IsFirst terms.now size front.new) }
{
    go_to(terms, front, &cond.hyps)?;
    let size = size_of(&front.branch);
    add(terms, &mut front.branch, cond.goal, false)?;
    Ok(size)
}

/// Takes the denied goal away again, in time linear in what it has added. It takes no memory.
pub fn to_hypotheses(front: &mut Front, size: Size)
    ensures { (nodes : List Plain) → IsFirst nodes size front.old → IsFront nodes front.new }
{
    back_to(&mut front.branch, size.literals, size.pending);
}
