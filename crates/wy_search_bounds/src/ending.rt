//! How elimination ends.
ghost use Rattle.std.specs.Prelude.{◌≡◌, IfOk, OnOk};
ghost use Rattle.wy_search_bounds.specs.Known.{AreKnown};
ghost use Rattle.wy_search_bounds.specs.Seen.{seen_ending};
ghost use Rattle.wy_cong.specs.Seen.{terms_of, IsPresent};
ghost use Rattle.wy_cong.specs.wy_facts.Seen.{Stays};
ghost use Rattle.wy_cong.specs.wy_check_nodes.Seen.{IsBranch, seen_branch};
ghost use Rattle.wy_cong.specs.wy_search_spec.Bounds as bounds;
ghost use Rattle.wy_term.specs.Nodes.{tree_at};

use crate::gathering::gather;
use crate::known::KnownForms;
use wy_cong::{Branch, Present};
use wy_lin_eliminate::{Elim, eliminate};
use wy_term::{NoMemory, Terms};

/// How elimination ends.
#[derive(Clone, Copy, Debug, PartialEq, Eq)]
pub enum Ending {
    /// The forms can't all be at least 0.
    Refuted,
    /// No form is left.
    Consistent,
    /// More than 4,096 forms would stand.
    Crowded,
    /// A number leaves 128 bits.
    Wide,
}

fn ending_of(end: &Elim) -> Ending
    ensures { seen_ending result ≡ bounds.ending_of end.now }
{
    match end {
        Elim::Refuted(_) => Ending::Refuted,
        Elim::Consistent => Ending::Consistent,
        Elim::Crowded => Ending::Crowded,
        Elim::Wide => Ending::Wide,
    }
}

/// How the elimination of the node's variables ends, each replaced by the first to appear of its class. It takes the time of
/// `form` on each literal whose form isn't known yet, time linear in the parts of all these forms, and that of the elimination.
/// Older numbers name what they named.
pub fn ending_of_elimination(
    terms: &mut Terms,
    known: &mut KnownForms,
    branch: &Branch,
    present: &Present,
    labels: &[u32],
) -> Result<Ending, NoMemory>
    requires branch { IsBranch terms.old branch.now }
    requires known { AreKnown terms.old known.old }
    requires present { IsPresent terms.old present.now }
    ensures value { IfOk result (λ e. seen_ending e ≡ bounds.ending_by (bounds.replaced_forms (terms_of (tree_at terms.old) present.now) labels.now (seen_branch (tree_at terms.old) branch.now).literals)) }
    ensures known { OnOk result (AreKnown terms.new known.new) }
    ensures stays { Stays terms.old terms.new }
{
    let found = gather(terms, known, branch, present, labels)?;
    if found.refutes {
        return Ok(Ending::Refuted);
    }
    if found.leaves {
        return Ok(Ending::Wide);
    }
    match eliminate(terms.allocator(), found.forms) {
        Ok(end) => Ok(ending_of(&end)),
        Err(_) => Err(NoMemory),
    }
}
