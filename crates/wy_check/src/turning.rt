//! The nodes that are still to be closed, from one step to the next.
ghost use Rattle.std.specs.Prelude.{◌≡◌, ◌++◌, true, length, IfOk, IfSome};
ghost use Rattle.wy_term.specs.Nodes.{tree_at};
ghost use Rattle.wy_term.specs.Condition.{condition_of};
ghost use Rattle.wy_facts.specs.Membership.{AreTypesBelow};
ghost use Rattle.wy_facts.specs.Seen.{Stays};
ghost use Rattle.wy_check_splits.specs.wy_check_nodes.Seen.{seen_branch};
ghost use Rattle.wy_cert.specs.Steps.{written, IsBelow};
ghost use Rattle.wy_vc_laws.specs.wy_check_spec.valid.Validity.{after};
ghost use Rattle.wy_check_splits.specs.wy_check_nodes.Trail.{nodes_of, second_nodes, IsTrail};
ghost use Rattle.wy_check.specs.Led.{led, IsOutcomeOver, IsTurned};

use crate::outcome::Outcome;
use crate::steps::outcome_of;
use wy_cert::Step;
use wy_check_splits::{Trail, close, grow, split};
use wy_term::{Cond, NoMemory, Terms};

// The nodes to which a step leads stand in the place of the present one.
fn taken(terms: &Terms, trail: Trail, outcome: Outcome) -> Result<Trail, NoMemory>
    requires open { trail.open ≡ true }
    requires trail { IsTrail terms.now trail }
    requires outcome { IsOutcomeOver (length terms.now) outcome }
    ensures nodes { IfOk result (λ t. nodes_of (tree_at terms.now) t ≡ led (tree_at terms.now) (seen_branch (tree_at terms.now) trail.branch) outcome ++ second_nodes (tree_at terms.now) trail.branch trail.waiting.items) }
    ensures trail { IfOk result (IsTrail terms.now) }
{
    match outcome {
        Outcome::Closes => close(terms, trail),
        Outcome::Adds(formulas) => grow(terms, trail, &formulas),
        Outcome::Splits(atom) => split(terms, trail, atom),
    }
}

/// The nodes that are still to be closed behind a step, where it is valid.
pub fn turned(
    terms: &mut Terms,
    trail: Trail,
    cond: &Cond,
    from: &Terms,
    step: &Step,
) -> Result<Option<Trail>, NoMemory>
    requires open { trail.open ≡ true }
    requires trail { IsTrail terms.old trail }
    requires types { AreTypesBelow (length terms.old) cond.now }
    requires step { IsBelow (length from.now) step.now }
    ensures value { IfOk result (IsTurned (tree_at terms.new) (after (condition_of terms.old cond.now).types (seen_branch (tree_at terms.old) trail.branch) (written (tree_at from.now) step.now)) (second_nodes (tree_at terms.old) trail.branch trail.waiting.items)) }
    ensures trail { IfOk result (λ o. IfSome o (IsTrail terms.new)) }
    ensures stays { Stays terms.old terms.new }
{
    match outcome_of(terms, &trail.branch, cond, from, step)? {
        Some(outcome) => match taken(terms, trail, outcome) {
            Ok(next) => Ok(Some(next)),
            Err(e) => Err(e),
        },
        None => Ok(None),
    }
}
