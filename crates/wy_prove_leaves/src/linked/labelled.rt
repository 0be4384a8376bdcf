//! The terms present in a node, and their classes.
ghost use Rattle.std.specs.Prelude.{◌≡◌, IfOk};
ghost use Rattle.wy_prove_drafts.specs.wy_cong.Seen.{terms_of, IsPresent};
ghost use Rattle.wy_prove_drafts.specs.wy_check_nodes.Seen.{seen_branch, IsBranch};
ghost use Rattle.wy_search_spec.specs.Classes as search;
ghost use Rattle.wy_search_spec.specs.Standing.{present};
ghost use Rattle.wy_term.specs.Nodes.{tree_at};

use wy_prove_drafts::{Branch, Present, classes, terms_present};
use wy_term::{NoMemory, Terms};

/// The terms present in a node, and a label of the class of each.
#[derive(Drop)]
pub struct Labelled {
    pub present: Present,
    pub labels: Vec<u32>,
}

/// Those of a node.
pub fn labelled_terms(terms: &Terms, base: &Branch) -> Result<Labelled, NoMemory>
    requires { IsBranch terms.now base.now }
    ensures terms { IfOk result (λ l. terms_of (tree_at terms.now) l.present ≡ present (seen_branch (tree_at terms.now) base.now)) }
    ensures labels { IfOk result (λ l. l.labels.items ≡ search.classes (present (seen_branch (tree_at terms.now) base.now)) (seen_branch (tree_at terms.now) base.now).literals) }
    ensures present { IfOk result (λ l. IsPresent terms.now l.present) }
{
    let present = terms_present(terms, base)?;
    let labels = classes(terms, base, &present)?;
    Ok(Labelled { present, labels })
}
