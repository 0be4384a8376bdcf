//! Witnesses.
ghost use Rattle.std.specs.Prelude.{◌≡◌, ◌<◌, List, Some, true, IfOk, OnOk, is_some, length};
ghost use Rattle.wy_prove_drafts.specs.Draft.{IsDraft, seen_draft};
ghost use Rattle.wy_facts.specs.Seen.{Stays};
ghost use Rattle.wy_prove_drafts.specs.wy_check_spec.judge.Node.{Node, has_literal, with_formulas};
ghost use Rattle.wy_prove_drafts.specs.wy_check_nodes.Seen.{IsBranch, seen_branch, seen_literal};
ghost use Rattle.wy_prove_drafts.specs.wy_search_spec.Expansion as search;
ghost use Rattle.wy_search.specs.StatedSeen.{IsSpot, seen_spot};
ghost use Rattle.wy_term.specs.Condition.{Entry};
ghost use Rattle.wy_term.specs.Nodes.{tree_at};
ghost use Rattle.wy_prove_drafts.specs.wy_check_spec.valid.Ranges.{Range, of_one, witness, witnessed_at};
ghost use Rattle.wy_prove_rounds.specs.Moving.{Follows, IsAlong};

use wy_prove_drafts::{
    Branch, Draft, add_literal, has_literal, literal_number, nth_literal, of_one, write_witness,
};
use wy_search::{Spot, copied_branch};
use wy_term::{NoMemory, Terms};

// The witness of a literal that calls for one.
fn write_witness_of(
    terms: &mut Terms,
    draft: &mut Draft,
    atom: u32,
    holds: bool,
) -> Result<(), NoMemory>
    requires draft { IsDraft terms.old draft.old }
    requires atom { atom < length terms.old }
    ensures value { (types : List Entry) (base node : Node) (r : Range) → of_one (seen_literal (tree_at terms.old) (atom, holds)) ≡ Some r → has_literal base.literals (seen_literal (tree_at terms.old) (atom, holds)) ≡ true → IsAlong types base node (seen_draft (tree_at terms.old) draft.old) → OnOk result (Follows types base (with_formulas node (witnessed_at holds r (witness node r))) (seen_draft (tree_at terms.old) draft.old) (seen_draft (tree_at terms.new) draft.new)) }
    ensures draft { OnOk result (IsDraft terms.new draft.new) }
    ensures stays { Stays terms.old terms.new }
{
    match literal_number(terms, &draft.branch, atom, holds)? {
        Some(i) => {
            write_witness(terms, draft, i)?;
            Ok(())
        }
        None => Ok(()),
    }
}

// Whether a literal calls for a witness.
fn calls_for_witness(terms: &Terms, atom: u32, holds: bool) -> Result<bool, NoMemory>
    requires { atom < length terms.now }
    ensures { IfOk result (λ b. b ≡ is_some (of_one (seen_literal (tree_at terms.now) (atom, holds)))) }
{
    let range = of_one(terms, atom, holds)?;
    Ok(range.is_some())
}

// That of a literal, if it calls for one and had none, and that it had one.
fn write_new_witness(
    terms: &mut Terms,
    draft: &mut Draft,
    had: &mut Branch,
    atom: u32,
    holds: bool,
) -> Result<(), NoMemory>
    requires draft { IsDraft terms.old draft.old }
    requires atom { atom < length terms.old }
    requires had { IsBranch terms.old had.old }
    ensures value { (types : List Entry) (base : Node) (p : search.Spot) → p.had ≡ (seen_branch (tree_at terms.old) had.old).literals → has_literal base.literals (seen_literal (tree_at terms.old) (atom, holds)) ≡ true → IsAlong types base p.node (seen_draft (tree_at terms.old) draft.old) → OnOk result (Follows types base (search.with_witness p (seen_literal (tree_at terms.old) (atom, holds)) (of_one (seen_literal (tree_at terms.old) (atom, holds)))).node (seen_draft (tree_at terms.old) draft.old) (seen_draft (tree_at terms.new) draft.new)) }
    ensures noted { (p : search.Spot) → p.had ≡ (seen_branch (tree_at terms.old) had.old).literals → OnOk result ((search.with_witness p (seen_literal (tree_at terms.old) (atom, holds)) (of_one (seen_literal (tree_at terms.old) (atom, holds)))).had ≡ (seen_branch (tree_at terms.new) had.new).literals) }
    ensures had { OnOk result (IsBranch terms.new had.new) }
    ensures draft { OnOk result (IsDraft terms.new draft.new) }
    ensures stays { Stays terms.old terms.new }
{
    let calls = calls_for_witness(terms, atom, holds)?;
    if !calls {
        return Ok(());
    }
    if has_literal(terms, had, atom, holds) {
        return Ok(());
    }
    add_literal(terms, had, atom, holds)?;
    write_witness_of(terms, draft, atom, holds)
}

/// The witness of each literal that calls for one and had none. Older numbers name what they named.
pub fn write_witnesses(terms: &mut Terms, draft: &mut Draft, spot: &Spot) -> Result<(), NoMemory>
    requires draft { IsDraft terms.old draft.old }
    requires spot { IsSpot terms.old spot.now }
    ensures value { (types : List Entry) → IsAlong types (seen_spot (tree_at terms.old) spot.now).node (seen_spot (tree_at terms.old) spot.now).node (seen_draft (tree_at terms.old) draft.old) → OnOk result (Follows types (seen_spot (tree_at terms.old) spot.now).node (search.with_witnesses (seen_spot (tree_at terms.old) spot.now) (seen_branch (tree_at terms.old) spot.now.branch).literals).node (seen_draft (tree_at terms.old) draft.old) (seen_draft (tree_at terms.new) draft.new)) }
    ensures draft { OnOk result (IsDraft terms.new draft.new) }
    ensures stays { Stays terms.old terms.new }
{
    let mut had = copied_branch(&spot.had)?;
    for i in 0..spot.branch.literals.len() {
        let (atom, holds) = nth_literal(terms, &spot.branch, i);
        write_new_witness(terms, draft, &mut had, atom, holds)?;
    }
    Ok(())
}
