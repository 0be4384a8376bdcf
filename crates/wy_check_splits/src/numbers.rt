//! The numbers of the names in a node.
ghost use Rattle.std.specs.Prelude.{◌≡◌, ◌<◌, ◌++◌, ℕ, List, Some, length, slice_get, IfOk, OnOk};
ghost use Rattle.wy_check_nodes.specs.wy_term.Nodes.{tree_at};
ghost use Rattle.wy_check_nodes.specs.wy_term_subst.Names.{numbers_in, new_number};
ghost use Rattle.wy_check_nodes.specs.wy_term_subst.View.{Counts};
ghost use Rattle.wy_check_nodes.specs.Seen.{seen_branch, AreOver, IsBranch};
ghost use Rattle.wy_check_nodes.specs.wy_check_spec.valid.Ranges.{numbers_in_node};
ghost use Rattle.wy_check_splits.specs.Numbers.{numbers_of};

use indexmap::IndexSet;
use wy_check_nodes::{
    Branch, NoMemory, Taken, Terms, made_of, new_number, none_taken, take_numbers,
};

// Notes the numbers of the names in a term.
fn take_term(terms: &Terms, t: u32, taken: &mut Taken) -> Result<(), NoMemory>
    requires { t < length terms.now }
    ensures { (ns : List ℕ) → Counts taken.old ns → OnOk result (Counts taken.new (numbers_in (tree_at terms.now t) ++ ns)) }
{
    let all = made_of(terms, t)?;
    take_numbers(terms, &all, taken)?;
    Ok(())
}

// The term with a place, from 0, in a list of literals or of pending formulas.
fn term_at(signed: &IndexSet<(u32, bool)>, i: usize) -> (u32, bool)
    requires { i < length signed.now.keys }
    ensures { slice_get signed.now.keys i ≡ Some result }
{
    match signed.get_index(i) {
        Some(p) => *p,
        None => (0, false),
    }
}

// Notes the numbers of the names in these terms.
fn take_all(
    terms: &Terms,
    signed: &IndexSet<(u32, bool)>,
    taken: &mut Taken,
) -> Result<(), NoMemory>
    requires { AreOver (length terms.now) signed.now.keys }
    ensures { (ns : List ℕ) → Counts taken.old ns → OnOk result (Counts taken.new (numbers_of (tree_at terms.now) signed.now.keys ++ ns)) }
{
    for i in 0..signed.len() {
        let (t, _) = term_at(signed, i);
        take_term(terms, t, taken)?;
    }
    Ok(())
}

/// A number that no name in the node has: the one above all of theirs, or where a name can't have it the least that is none
/// of theirs. It takes time linear in how many terms each literal and each pending formula is made of.
pub fn fresh_number(terms: &Terms, branch: &Branch) -> Result<u128, NoMemory>
    requires { IsBranch terms.now branch.now }
    ensures { IfOk result (λ n. n ≡ new_number (numbers_in_node (seen_branch (tree_at terms.now) branch.now))) }
{
    let mut taken = none_taken(terms.allocator());
    take_all(terms, &branch.literals, &mut taken)?;
    take_all(terms, &branch.pending, &mut taken)?;
    let number = new_number(&mut taken)?;
    Ok(number)
}
