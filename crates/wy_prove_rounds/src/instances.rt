//! Instances.
ghost use Rattle.std.specs.Prelude.{◌≡◌, ◌<◌, [], ◌∷◌, List, true, IfOk, OnOk, is_some, length, map};
ghost use Rattle.wy_prove_drafts.specs.Draft.{IsDraft, seen_draft};
ghost use Rattle.wy_facts.specs.Seen.{AreBelow, Stays};
ghost use Rattle.wy_prove_drafts.specs.wy_check_spec.judge.Node.{Node, has_literal};
ghost use Rattle.wy_prove_drafts.specs.wy_check_nodes.Seen.{IsBranch, seen_branch, seen_literal};
ghost use Rattle.wy_prove_drafts.specs.wy_search_spec.Expansion as search;
ghost use Rattle.wy_term.specs.Condition.{Entry};
ghost use Rattle.wy_term.specs.Nodes.{tree_at};
ghost use Rattle.wy_prove_drafts.specs.wy_check_spec.valid.Ranges.{of_each};
ghost use Rattle.wy_prove_rounds.specs.Moving.{AllOf, IsInstant, Moves};

use wy_prove_drafts::{Branch, Draft, literal_number, nth_literal, of_each, write_instance};
use wy_term::{NoMemory, Terms};

// What a literal states of a term, if it calls for it.
fn write_instance_of(
    terms: &mut Terms,
    draft: &mut Draft,
    atom: u32,
    holds: bool,
    t: u32,
) -> Result<(), NoMemory>
    requires draft { IsDraft terms.old draft.old }
    requires atom { atom < length terms.old }
    requires term { t < length terms.old }
    ensures value { (types : List Entry) (base : Node) → has_literal base.literals (seen_literal (tree_at terms.old) (atom, holds)) ≡ true → IsInstant (tree_at terms.old t) → OnOk result (Moves types base (λ node. search.with_instances_by node holds (of_each (seen_literal (tree_at terms.old) (atom, holds))) (tree_at terms.old t ∷ [])) (seen_draft (tree_at terms.old) draft.old) (seen_draft (tree_at terms.new) draft.new)) }
    ensures draft { OnOk result (IsDraft terms.new draft.new) }
    ensures stays { Stays terms.old terms.new }
{
    match literal_number(terms, &draft.branch, atom, holds)? {
        Some(i) => {
            write_instance(terms, draft, i, t)?;
            Ok(())
        }
        None => Ok(()),
    }
}

// What a literal states of each of these terms, if it calls for it.
fn write_instances_of(
    terms: &mut Terms,
    draft: &mut Draft,
    atom: u32,
    holds: bool,
    all: &[u32],
) -> Result<(), NoMemory>
    requires draft { IsDraft terms.old draft.old }
    requires atom { atom < length terms.old }
    requires terms { AreBelow (length terms.old) all.now }
    ensures value { (types : List Entry) (base : Node) → has_literal base.literals (seen_literal (tree_at terms.old) (atom, holds)) ≡ true → AllOf IsInstant (map (tree_at terms.old) all.now) → OnOk result (Moves types base (λ node. search.with_instances_by node holds (of_each (seen_literal (tree_at terms.old) (atom, holds))) (map (tree_at terms.old) all.now)) (seen_draft (tree_at terms.old) draft.old) (seen_draft (tree_at terms.new) draft.new)) }
    ensures draft { OnOk result (IsDraft terms.new draft.new) }
    ensures stays { Stays terms.old terms.new }
{
    for t in all {
        write_instance_of(terms, draft, atom, holds, *t)?;
    }
    Ok(())
}

// Whether a literal calls for instances.
fn calls_for_instances(terms: &Terms, atom: u32, holds: bool) -> Result<bool, NoMemory>
    requires { atom < length terms.now }
    ensures { IfOk result (λ b. b ≡ is_some (of_each (seen_literal (tree_at terms.now) (atom, holds)))) }
{
    let range = of_each(terms, atom, holds)?;
    Ok(range.is_some())
}

// The same, where only a literal that calls for instances is looked at.
fn write_instances_by(
    terms: &mut Terms,
    draft: &mut Draft,
    atom: u32,
    holds: bool,
    all: &[u32],
) -> Result<(), NoMemory>
    requires draft { IsDraft terms.old draft.old }
    requires atom { atom < length terms.old }
    requires terms { AreBelow (length terms.old) all.now }
    ensures value { (types : List Entry) (base : Node) → has_literal base.literals (seen_literal (tree_at terms.old) (atom, holds)) ≡ true → AllOf IsInstant (map (tree_at terms.old) all.now) → OnOk result (Moves types base (λ node. search.with_instances_by node holds (of_each (seen_literal (tree_at terms.old) (atom, holds))) (map (tree_at terms.old) all.now)) (seen_draft (tree_at terms.old) draft.old) (seen_draft (tree_at terms.new) draft.new)) }
    ensures draft { OnOk result (IsDraft terms.new draft.new) }
    ensures stays { Stays terms.old terms.new }
{
    let calls = calls_for_instances(terms, atom, holds)?;
    if calls {
        write_instances_of(terms, draft, atom, holds, all)
    } else {
        Ok(())
    }
}

/// What each literal of the node states of each of these terms, where it calls for it. Older numbers name what they named.
pub fn write_instances(
    terms: &mut Terms,
    draft: &mut Draft,
    branch: &Branch,
    all: &[u32],
) -> Result<(), NoMemory>
    requires draft { IsDraft terms.old draft.old }
    requires branch { IsBranch terms.old branch.now }
    requires terms { AreBelow (length terms.old) all.now }
    ensures value { (types : List Entry) → AllOf IsInstant (map (tree_at terms.old) all.now) → OnOk result (Moves types (seen_branch (tree_at terms.old) branch.now) (λ node. search.with_instances node (seen_branch (tree_at terms.old) branch.now).literals (map (tree_at terms.old) all.now)) (seen_draft (tree_at terms.old) draft.old) (seen_draft (tree_at terms.new) draft.new)) }
    ensures draft { OnOk result (IsDraft terms.new draft.new) }
    ensures stays { Stays terms.old terms.new }
{
    for i in 0..branch.literals.len() {
        let (atom, holds) = nth_literal(terms, branch, i);
        write_instances_by(terms, draft, atom, holds, all)?;
    }
    Ok(())
}
