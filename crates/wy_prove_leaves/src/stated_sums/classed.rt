//! The classes of a node.
ghost use Rattle.std.specs.Prelude.{IfOk};
ghost use Rattle.wy_prove_drafts.specs.wy_check_nodes.Seen.{seen_branch, IsBranch};
ghost use Rattle.wy_prove_leaves.specs.stated_sums.Classed.{IsClassed};
ghost use Rattle.wy_term.specs.Nodes.{tree_at};

use wy_prove_drafts::{Branch, Present, classes, terms_present};
use wy_term::{NoMemory, Terms};

/// The terms present in a node, and the label of each one's class.
#[derive(Drop)]
pub struct Classed {
    pub present: Present,
    pub labels: Vec<u32>,
}

/// The classes of a node.
pub fn classes_of(terms: &Terms, base: &Branch) -> Result<Classed, NoMemory>
    requires base { IsBranch terms.now base.now }
    ensures value { IfOk result (IsClassed terms.now (seen_branch (tree_at terms.now) base.now)) }
{
    let present = terms_present(terms, base)?;
    let labels = classes(terms, base, &present)?;
    Ok(Classed { present, labels })
}
