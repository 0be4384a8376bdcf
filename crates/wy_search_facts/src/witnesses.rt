//! Witnesses.
ghost use Rattle.std.specs.Prelude.{◌≡◌, ◌<◌, false, Some, length, IfOk};
ghost use Rattle.wy_facts.specs.Seen.{Stays};
ghost use Rattle.wy_search_facts.specs.Seen.{seen_spot, IsSpot};
ghost use Rattle.wy_cong.specs.wy_check_spec.judge.Node.{has_literal};
ghost use Rattle.wy_check_nodes.specs.Seen.{seen_branch, seen_literal};
ghost use Rattle.wy_check_splits.specs.Seen.{seen_range, IsRangeOver};
ghost use Rattle.wy_cong.specs.wy_search_spec.Expansion as search;
ghost use Rattle.wy_term.specs.Nodes.{tree_at};
ghost use Rattle.wy_cong.specs.wy_check_spec.valid.Ranges.{of_one};

use crate::spot::{Spot, literals_of};
use wy_check_nodes::{add_all, add_literal, has_literal};
use wy_check_splits::{Range, fresh_number, name, of_one, witnessed_at};
use wy_term::{NoMemory, Terms};

// The witness of a literal, whose range this is.
fn with_new(
    terms: &mut Terms,
    spot: Spot,
    atom: u32,
    holds: bool,
    r: &Range,
) -> Result<Spot, NoMemory>
    requires atom { atom < length terms.old }
    requires spot { IsSpot terms.old spot }
    requires range { IsRangeOver (length terms.old) r.now }
    requires unseen { has_literal (seen_branch (tree_at terms.old) spot.had).literals (seen_literal (tree_at terms.old) (atom, holds)) ≡ false }
    ensures value { IfOk result (λ p. seen_spot (tree_at terms.new) p ≡ search.with_witness (seen_spot (tree_at terms.old) spot) (seen_literal (tree_at terms.old) (atom, holds)) (Some (seen_range (tree_at terms.old) r.now))) }
    ensures spot { IfOk result (IsSpot terms.new) }
    ensures stays { Stays terms.old terms.new }
{
    let Spot {
        mut branch,
        mut had,
        mut names,
        rounds,
    } = spot;
    let number = fresh_number(terms, &branch)?;
    let x = name(terms, &r.word, number)?;
    let formulas = witnessed_at(terms, holds, r, x)?;
    add_all(terms, &mut branch, &formulas)?;
    add_literal(terms, &mut had, atom, holds)?;
    names.push(x)?;
    Ok(Spot {
        branch,
        had,
        names,
        rounds,
    })
}

// That of a literal, if it calls for one and had none.
fn with_witness(terms: &mut Terms, spot: Spot, atom: u32, holds: bool) -> Result<Spot, NoMemory>
    requires atom { atom < length terms.old }
    requires spot { IsSpot terms.old spot }
    ensures value { IfOk result (λ p. seen_spot (tree_at terms.new) p ≡ search.with_witness (seen_spot (tree_at terms.old) spot) (seen_literal (tree_at terms.old) (atom, holds)) (of_one (seen_literal (tree_at terms.old) (atom, holds)))) }
    ensures spot { IfOk result (IsSpot terms.new) }
    ensures stays { Stays terms.old terms.new }
{
    match of_one(terms, atom, holds)? {
        None => Ok(spot),
        Some(r) => {
            if has_literal(terms, &spot.had, atom, holds) {
                Ok(spot)
            } else {
                with_new(terms, spot, atom, holds, &r)
            }
        }
    }
}

/// The witness of each literal that calls for one and had none. For each of them it goes through the node for the numbers of
/// its names. Older numbers name what they named.
pub fn with_witnesses(terms: &mut Terms, spot: Spot) -> Result<Spot, NoMemory>
    requires { IsSpot terms.old spot }
    ensures value { IfOk result (λ p. seen_spot (tree_at terms.new) p ≡ search.with_witnesses (seen_spot (tree_at terms.old) spot) (seen_branch (tree_at terms.old) spot.branch).literals) }
    ensures spot { IfOk result (IsSpot terms.new) }
    ensures stays { Stays terms.old terms.new }
{
    let literals = literals_of(terms, &spot.branch)?;
    let mut spot = spot;
    for (atom, holds) in &literals {
        spot = with_witness(terms, spot, *atom, *holds)?;
    }
    Ok(spot)
}
