//! Nodes of a certificate's tree.
ghost use Rattle.std.specs.Prelude.{◌≡◌, ◌<◌, ℕ, List, true, false, Some, length, take, slice_get, option_map, IfSome, OnOk};
ghost use Rattle.wy_check_spec.specs.wy_term.Term.{Term};
ghost use Rattle.wy_check_spec.specs.wy_term.Nodes.{Plain, tree_at};
ghost use Rattle.wy_check_spec.specs.judge.Node.{bare, has_literal, with_literal, with_pending};
ghost use Rattle.wy_check_nodes.specs.Seen.{seen_branch, seen_literal, seen_formula, is_denied, literal_numbered, IsBranch, Extends};

use indexmap::IndexSet;
use std::alloc::Global;
use wy_check_spec::{NoMemory, Terms};

/// A node: literals, each an atom's number and whether it holds, and pending formulas, each a formula's number and whether
/// it holds, where false stands for the formula's denial. Both are in the order in which they came, each once.
#[derive(Drop)]
pub struct Branch {
    pub literals: IndexSet<(u32, bool)>,
    pub pending: IndexSet<(u32, bool)>,
}

/// The node in which nothing is. It takes no memory.
pub fn bare(alloc: Global) -> Branch
    ensures value { (at : ℕ → Term) → seen_branch at result ≡ bare }
    ensures branch { (nodes : List Plain) → IsBranch nodes result }
{
    Branch {
        literals: IndexSet::new(alloc),
        pending: IndexSet::new(alloc),
    }
}

/// Adds a literal, unless it is there, in constant time on average.
pub fn add_literal(
    terms: &Terms,
    branch: &mut Branch,
    atom: u32,
    holds: bool,
) -> Result<(), NoMemory>
    requires atom { atom < length terms.now }
    requires branch { IsBranch terms.now branch.old }
    ensures value { OnOk result (seen_branch (tree_at terms.now) branch.new ≡ with_literal (seen_branch (tree_at terms.now) branch.old) (seen_literal (tree_at terms.now) (atom, holds))) }
    ensures branch { OnOk result (IsBranch terms.now branch.new) }
    ensures grows { OnOk result (Extends branch.old branch.new) }
{
    terms.one_number_for_each_term();
    branch.literals.insert((atom, holds))?;
    Ok(())
}

/// Adds a pending formula, unless it is there, in constant time on average. A denial is given by the formula that it denies.
pub fn add_pending(
    terms: &Terms,
    branch: &mut Branch,
    formula: u32,
    holds: bool,
) -> Result<(), NoMemory>
    requires formula { formula < length terms.now }
    requires branch { IsBranch terms.now branch.old }
    requires bare { holds ≡ true → is_denied (tree_at terms.now formula) ≡ false }
    ensures value { OnOk result (seen_branch (tree_at terms.now) branch.new ≡ with_pending (seen_branch (tree_at terms.now) branch.old) (seen_formula (tree_at terms.now) (formula, holds))) }
    ensures branch { OnOk result (IsBranch terms.now branch.new) }
    ensures grows { OnOk result (Extends branch.old branch.new) }
{
    terms.one_number_for_each_term();
    branch.pending.insert((formula, holds))?;
    Ok(())
}

/// Takes away the literals and the pending formulas that came after so many, in time linear in their number. It takes no
/// memory.
pub fn back_to(branch: &mut Branch, literals: usize, pending: usize)
    ensures literals { branch.new.literals.keys ≡ take literals branch.old.literals.keys }
    ensures pending { branch.new.pending.keys ≡ take pending branch.old.pending.keys }
    ensures branch { (nodes : List Plain) → IsBranch nodes branch.old → IsBranch nodes branch.new }
{
    branch.literals.truncate(literals);
    branch.pending.truncate(pending);
}

/// The literal with a number from 1, as its atom's number and whether it holds, in constant time.
pub fn literal_at(terms: &Terms, branch: &Branch, i: u32) -> Option<(u32, bool)>
    requires { IsBranch terms.now branch.now }
    ensures value { option_map (seen_literal (tree_at terms.now)) result ≡ literal_numbered (seen_branch (tree_at terms.now) branch.now).literals i }
    ensures within { IfSome result (λ l. l.0 < length terms.now) }
{
    let _terms = terms;
    if i == 0 {
        return None;
    }
    branch.literals.get_index(i as usize - 1).copied()
}

/// The literal with a place from 0, in constant time.
pub fn nth_literal(terms: &Terms, branch: &Branch, i: usize) -> (u32, bool)
    requires place { i < length branch.now.literals.keys }
    requires branch { IsBranch terms.now branch.now }
    ensures value { slice_get branch.now.literals.keys i ≡ Some result }
    ensures within { result.0 < length terms.now }
{
    let _terms = terms;
    match branch.literals.get_index(i) {
        Some(l) => *l,
        None => (0, false),
    }
}

/// Whether an atom with this sign is a literal, in constant time on average.
pub fn has_literal(terms: &Terms, branch: &Branch, atom: u32, holds: bool) -> bool
    requires atom { atom < length terms.now }
    requires branch { IsBranch terms.now branch.now }
    ensures { result ≡ has_literal (seen_branch (tree_at terms.now) branch.now).literals (seen_literal (tree_at terms.now) (atom, holds)) }
{
    terms.one_number_for_each_term();
    branch.literals.contains(&(atom, holds))
}
