//! A draft.
ghost use Rattle.std.specs.Prelude.{◌≡◌, ◌<◌, [], All, IfOk, length};
ghost use Rattle.wy_prove_drafts.specs.Draft.{IsDraft, seen_draft};
ghost use Rattle.wy_search_laws.specs.wy_check_spec.judge.Node.{first_node};
ghost use Rattle.wy_term.specs.Condition.{condition_of};
ghost use Rattle.wy_term.specs.Nodes.{tree_at};

use wy_cert::Step;
use wy_check_nodes::{Branch, first_branch};
use wy_term::{Cond, NoMemory, Terms};

/// Steps in prefix order and the terms that they name, and the node at which the next step stands, in the condition's terms.
#[derive(Drop)]
pub struct Draft {
    pub terms: Terms,
    pub steps: Vec<Step>,
    pub branch: Branch,
}

/// Nothing is written, and the node is that in which the certificates of a condition begin.
pub fn first_draft(terms: &Terms, cond: &Cond) -> Result<Draft, NoMemory>
    requires hyps { All (λ h. h < length terms.now) cond.now.hyps.items }
    requires goal { cond.now.goal < length terms.now }
    ensures seen { IfOk result (λ d. seen_draft (tree_at terms.now) d ≡ record { steps = []; node = first_node (condition_of terms.now cond.now) }) }
    ensures draft { IfOk result (IsDraft terms.now) }
{
    let alloc = terms.allocator();
    let branch = first_branch(alloc, terms, cond)?;
    Ok(Draft {
        terms: Terms::new(alloc),
        steps: Vec::new(alloc),
        branch,
    })
}
