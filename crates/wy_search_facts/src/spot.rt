//! Nodes on a path of the search.
ghost use Rattle.std.specs.Prelude.{◌≡◌, IfOk};
ghost use Rattle.wy_check_nodes.specs.Seen.{IsBranch};

use indexmap::IndexSet;
use wy_check_nodes::{Branch, nth_literal};
use wy_term::{NoMemory, Terms};

/// A node, the literals that had a witness (as those of another node), the names that were made for them, and how many rounds
/// of expansion were made.
#[derive(Drop)]
pub struct Spot {
    pub branch: Branch,
    pub had: Branch,
    pub names: Vec<u32>,
    pub rounds: u32,
}

// A copy of literals, or of pending formulas.
fn copied_set(signed: &IndexSet<(u32, bool)>) -> Result<IndexSet<(u32, bool)>, NoMemory>
    ensures { IfOk result (λ s. s.keys ≡ signed.now.keys) }
{
    Ok(signed.clone()?)
}

/// A copy of a node, in time linear in its literals and pending formulas.
pub fn copied_branch(branch: &Branch) -> Result<Branch, NoMemory>
    ensures literals { IfOk result (λ b. b.literals.keys ≡ branch.now.literals.keys) }
    ensures pending { IfOk result (λ b. b.pending.keys ≡ branch.now.pending.keys) }
{
    Ok(Branch {
        literals: copied_set(&branch.literals)?,
        pending: copied_set(&branch.pending)?,
    })
}

/// The literals of a node, in order, each an atom's number and whether it holds, in linear time.
pub fn literals_of(terms: &Terms, branch: &Branch) -> Result<Vec<(u32, bool)>, NoMemory>
    requires { IsBranch terms.now branch.now }
    ensures { IfOk result (λ ls. ls.items ≡ branch.now.literals.keys) }
{
    let mut made = Vec::new(terms.allocator());
    for i in 0..branch.literals.len() {
        made.push(nth_literal(terms, branch, i))?;
    }
    Ok(made)
}
