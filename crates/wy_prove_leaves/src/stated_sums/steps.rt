//! The steps of elimination, written.
ghost use Rattle.std.specs.Prelude.{ℕ, List, IfOk, OnOk};
ghost use Rattle.wy_prove_drafts.specs.Draft.{IsDraft, seen_draft};
ghost use Rattle.wy_facts.specs.Seen.{Stays};
ghost use Rattle.wy_prove_drafts.specs.wy_check_spec.judge.Node.{Node};
ghost use Rattle.wy_lin.specs.Linear.{Linear};
ghost use Rattle.wy_prove_leaves.specs.stated_sums.Named.{AreNamed};
ghost use Rattle.wy_prove_leaves.specs.stated_sums.Steps.{Closed, Refutes};
ghost use Rattle.wy_term.specs.Condition.{Entry};
ghost use Rattle.wy_term.specs.Nodes.{tree_at};

use crate::stated_sums::cutting::state_cut;
use crate::stated_sums::pairs::with_numbers;
use wy_lin_eliminate::LinStep;
use wy_prove_drafts::{Draft, close_by_sum};
use wy_term::{NoMemory, Terms};

/// Writes steps over the forms of the literals with these numbers, where each cut gives one more, and says whether the last one
/// closes the node.
pub fn write_steps(
    terms: &mut Terms,
    draft: &mut Draft,
    numbers: Vec<u32>,
    steps: &[LinStep],
) -> Result<bool, NoMemory>
    requires draft { IsDraft terms.old draft.old }
    ensures value { (types : List Entry) (base : Node) (all : List (Linear ℕ)) → AreNamed base (seen_draft (tree_at terms.old) draft.old).node.literals numbers.items all → Refutes all steps.now → IfOk result (Closed types (seen_draft (tree_at terms.old) draft.old) (seen_draft (tree_at terms.new) draft.new)) }
    ensures draft { OnOk result (IsDraft terms.new draft.new) }
    ensures stays { Stays terms.old terms.new }
{
    let mut numbers = numbers;
    for step in steps {
        match step {
            LinStep::Sum(ms) => {
                let pairs = with_numbers(terms.allocator(), &numbers, ms.as_slice())?;
                return close_by_sum(terms, draft, pairs);
            }
            LinStep::Cut(d, ms) => {
                let pairs = with_numbers(terms.allocator(), &numbers, ms.as_slice())?;
                match state_cut(terms, draft, *d, pairs)? {
                    Some(k) => numbers.push(k)?,
                    None => return Ok(false),
                }
            }
        }
    }
    Ok(false)
}
