//! Instances.
ghost use Rattle.std.specs.Prelude.{◌≡◌, ◌<◌, length, map, OnOk};
ghost use Rattle.wy_facts.specs.Seen.{AreBelow, Stays};
ghost use Rattle.wy_cong.specs.wy_check_spec.judge.Node.{added};
ghost use Rattle.wy_check_nodes.specs.Seen.{IsBranch, seen_branch, seen_literal};
ghost use Rattle.wy_check_splits.specs.Seen.{seen_range, IsRangeOver};
ghost use Rattle.wy_cong.specs.wy_search_spec.Expansion as search;
ghost use Rattle.wy_term.specs.Nodes.{tree_at};
ghost use Rattle.wy_cong.specs.wy_check_spec.valid.Ranges.{instance_at, of_each};

use crate::spot::literals_of;
use wy_check_nodes::{Branch, add};
use wy_check_splits::{Range, instance_at, of_each};
use wy_term::{NoMemory, Terms};

// What a quantifier with this range states of a term.
fn with_instance(
    terms: &mut Terms,
    branch: &mut Branch,
    holds: bool,
    r: &Range,
    t: u32,
) -> Result<(), NoMemory>
    requires branch { IsBranch terms.old branch.old }
    requires range { IsRangeOver (length terms.old) r.now }
    requires term { t < length terms.old }
    ensures value { OnOk result (seen_branch (tree_at terms.new) branch.new ≡ added (seen_branch (tree_at terms.old) branch.old) (instance_at holds (seen_range (tree_at terms.old) r.now) (tree_at terms.old t))) }
    ensures branch { OnOk result (IsBranch terms.new branch.new) }
    ensures stays { Stays terms.old terms.new }
{
    let f = instance_at(terms, holds, r, t)?;
    add(terms, branch, f, true)
}

// What it states of each of these terms.
fn with_instances_of(
    terms: &mut Terms,
    branch: &mut Branch,
    holds: bool,
    r: &Range,
    all: &[u32],
) -> Result<(), NoMemory>
    requires branch { IsBranch terms.old branch.old }
    requires range { IsRangeOver (length terms.old) r.now }
    requires terms { AreBelow (length terms.old) all.now }
    ensures value { OnOk result (seen_branch (tree_at terms.new) branch.new ≡ search.with_instances_of (seen_branch (tree_at terms.old) branch.old) holds (seen_range (tree_at terms.old) r.now) (map (tree_at terms.old) all.now)) }
    ensures branch { OnOk result (IsBranch terms.new branch.new) }
    ensures stays { Stays terms.old terms.new }
{
    for t in all {
        with_instance(terms, branch, holds, r, *t)?;
    }
    Ok(())
}

// What a literal states of each of these terms, if it calls for it.
fn with_instances_by(
    terms: &mut Terms,
    branch: &mut Branch,
    atom: u32,
    holds: bool,
    all: &[u32],
) -> Result<(), NoMemory>
    requires branch { IsBranch terms.old branch.old }
    requires atom { atom < length terms.old }
    requires terms { AreBelow (length terms.old) all.now }
    ensures value { OnOk result (seen_branch (tree_at terms.new) branch.new ≡ search.with_instances_by (seen_branch (tree_at terms.old) branch.old) holds (of_each (seen_literal (tree_at terms.old) (atom, holds))) (map (tree_at terms.old) all.now)) }
    ensures branch { OnOk result (IsBranch terms.new branch.new) }
    ensures stays { Stays terms.old terms.new }
{
    match of_each(terms, atom, holds)? {
        Some(r) => with_instances_of(terms, branch, holds, &r, all),
        None => Ok(()),
    }
}

/// What each literal that the node has at first states of each of these terms, where it calls for it. It takes the time to put
/// each term into the body of each quantifier that is such a literal. Older numbers name what they named.
pub fn with_instances(terms: &mut Terms, branch: &mut Branch, all: &[u32]) -> Result<(), NoMemory>
    requires branch { IsBranch terms.old branch.old }
    requires terms { AreBelow (length terms.old) all.now }
    ensures value { OnOk result (seen_branch (tree_at terms.new) branch.new ≡ search.with_instances (seen_branch (tree_at terms.old) branch.old) (seen_branch (tree_at terms.old) branch.old).literals (map (tree_at terms.old) all.now)) }
    ensures branch { OnOk result (IsBranch terms.new branch.new) }
    ensures stays { Stays terms.old terms.new }
{
    let literals = literals_of(terms, branch)?;
    for (atom, holds) in &literals {
        with_instances_by(terms, branch, *atom, *holds, all)?;
    }
    Ok(())
}
