//! What formulas add to a node.
ghost use Rattle.std.specs.Prelude.{◌≡◌, false, length, map, IfOk, OnOk};
ghost use Rattle.wy_facts.specs.Seen.{AreBelow};
ghost use Rattle.wy_search_laws.specs.wy_check_spec.judge.Node.{with_formulas};
ghost use Rattle.wy_check_nodes.specs.Seen.{seen_branch, IsBranch};
ghost use Rattle.wy_term.specs.Nodes.{tree_at};

use wy_check_nodes::{Branch, add_all};
use wy_term::{NoMemory, Terms};

/// Adds these formulas to a node, one after the other, and says whether it has more afterwards.
pub fn grow(terms: &Terms, branch: &mut Branch, formulas: &[u32]) -> Result<bool, NoMemory>
    requires formulas { AreBelow (length terms.now) formulas.now }
    requires branch { IsBranch terms.now branch.old }
    ensures value { OnOk result (seen_branch (tree_at terms.now) branch.new ≡ with_formulas (seen_branch (tree_at terms.now) branch.old) (map (tree_at terms.now) formulas.now)) }
    ensures same { IfOk result (λ more. more ≡ false → seen_branch (tree_at terms.now) branch.new ≡ seen_branch (tree_at terms.now) branch.old) }
    ensures branch { OnOk result (IsBranch terms.now branch.new) }
{
    let literals = branch.literals.len();
    let pending = branch.pending.len();
    add_all(terms, branch, formulas)?;
    Ok(literals < branch.literals.len() || pending < branch.pending.len())
}
