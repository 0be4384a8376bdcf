//! Steps, put to a draft.
ghost use Rattle.std.specs.Prelude.{◌≡◌, ◌<◌, [], ◌∷◌, is_some, length, option_map, IfOk, IfSome, OnOk};
ghost use Rattle.wy_cert.specs.Steps.{IsBelow, written};
ghost use Rattle.wy_prove_drafts.specs.Adding.{Adds, States, with_step};
ghost use Rattle.wy_prove_drafts.specs.Draft.{IsDraft, seen_draft};
ghost use Rattle.wy_facts.specs.Seen.{AreBelow, terms_at};
ghost use Rattle.wy_term.specs.Nodes.{tree_at};

use crate::copying::own_step;
use crate::draft::Draft;
use crate::growing::grow;
use wy_cert::Step;
use wy_term::{NoMemory, Terms};

/// Writes a step of the condition's terms, and leaves the node as it is.
pub fn put(terms: &Terms, draft: &mut Draft, step: Step) -> Result<(), NoMemory>
    requires draft { IsDraft terms.now draft.old }
    requires step { IsBelow (length terms.now) step }
    ensures value { OnOk result (seen_draft (tree_at terms.now) draft.new ≡ with_step (seen_draft (tree_at terms.now) draft.old) (written (tree_at terms.now) step)) }
    ensures draft { OnOk result (IsDraft terms.now draft.new) }
    ensures branch { draft.new.branch ≡ draft.old.branch }
{
    let own = own_step(&mut draft.terms, terms, step)?;
    draft.steps.push(own)?;
    Ok(())
}

// Adds formulas to the node, and writes the step that states them, unless the node has no more afterwards.
fn add(terms: &Terms, draft: &mut Draft, step: Step, formulas: &[u32]) -> Result<(), NoMemory>
    requires draft { IsDraft terms.now draft.old }
    requires step { IsBelow (length terms.now) step }
    requires formulas { AreBelow (length terms.now) formulas.now }
    ensures value { OnOk result (Adds (written (tree_at terms.now) step) (terms_at terms.now formulas.now) (seen_draft (tree_at terms.now) draft.old) (seen_draft (tree_at terms.now) draft.new)) }
    ensures draft { OnOk result (IsDraft terms.now draft.new) }
{
    if grow(terms, &mut draft.branch, formulas)? {
        return put(terms, draft, step);
    }
    Ok(())
}

/// Adds the formulas that a step states, if it states any, and writes the step, unless they add nothing.
pub fn state_all(
    terms: &Terms,
    draft: &mut Draft,
    step: Step,
    stated: Option<Vec<u32>>,
) -> Result<bool, NoMemory>
    requires draft { IsDraft terms.now draft.old }
    requires step { IsBelow (length terms.now) step }
    requires stated { IfSome stated (λ fs. AreBelow (length terms.now) fs.items) }
    ensures value { OnOk result (States (written (tree_at terms.now) step) (option_map (λ fs. terms_at terms.now fs.items) stated) (seen_draft (tree_at terms.now) draft.old) (seen_draft (tree_at terms.now) draft.new)) }
    ensures stated { IfOk result (λ yes. yes ≡ is_some stated) }
    ensures draft { OnOk result (IsDraft terms.now draft.new) }
{
    match stated {
        Some(formulas) => {
            add(terms, draft, step, &formulas)?;
            Ok(true)
        }
        None => Ok(false),
    }
}

/// The same of a step that states one formula.
pub fn state_one(
    terms: &Terms,
    draft: &mut Draft,
    step: Step,
    stated: Option<u32>,
) -> Result<bool, NoMemory>
    requires draft { IsDraft terms.now draft.old }
    requires step { IsBelow (length terms.now) step }
    requires stated { IfSome stated (λ f. f < length terms.now) }
    ensures value { OnOk result (States (written (tree_at terms.now) step) (option_map (λ f. tree_at terms.now f ∷ []) stated) (seen_draft (tree_at terms.now) draft.old) (seen_draft (tree_at terms.now) draft.new)) }
    ensures stated { IfOk result (λ yes. yes ≡ is_some stated) }
    ensures draft { OnOk result (IsDraft terms.now draft.new) }
{
    match stated {
        Some(formula) => {
            add(terms, draft, step, &[formula])?;
            Ok(true)
        }
        None => Ok(false),
    }
}
