//! On what a search splits whose budget is spent.
ghost use Rattle.std.specs.Prelude.{◌≡◌, ◌<◌, All, length, OnOk};
ghost use Rattle.wy_search.specs.wy_search_bounds.wy_facts.Membership.{AreTypesBelow};
ghost use Rattle.wy_search.specs.wy_search_bounds.wy_facts.Seen.{Stays};
ghost use Rattle.wy_search.specs.wy_search_bounds.Known.{AreKnown};
ghost use Rattle.wy_search.specs.wy_search_facts.Seen.{IsSpot};

use std::alloc::Global;
use wy_check_nodes::nth_literal;
use wy_explain::{Cond, Counted, NoMemory, Terms};
use wy_search::{KnownForms, Next, Spot, first_spot, no_forms, what_follows};

/// How many nodes stand above one another.
const DEEPEST: u32 = 400;

// What was counted so far: how many cases, of so many at most, and of the splits the atoms, each with how often.
#[derive(Drop)]
struct Tally {
    most: u64,
    cases: u64,
    splits: u64,
    atoms: Vec<(u32, u64)>,
}

/// Counts the splits of the search of a condition in so many of its first cases. The terms grow.
pub fn splits_of(
    alloc: Global,
    terms: &mut Terms,
    cond: &Cond,
    most: u64,
) -> Result<Counted, NoMemory>
    requires hyps { All (λ h. h < length terms.old) cond.now.hyps.items }
    requires goal { cond.now.goal < length terms.old }
    requires types { AreTypesBelow (length terms.old) cond.now }
{
    let mut known = no_forms(alloc, terms.len());
    let mut tally = Tally {
        most,
        cases: 0,
        splits: 0,
        atoms: Vec::new(alloc),
    };
    let spot = first_spot(terms, cond)?;
    count(terms, &mut known, cond, spot, DEEPEST, &mut tally)?;
    let Tally {
        cases,
        splits,
        atoms,
        ..
    } = tally;
    let mut own = Terms::new(alloc);
    let mut most = Vec::new(alloc);
    for pair in atoms.as_slice() {
        let (atom, count) = *pair;
        if (atom as usize) < terms.len() {
            let copy = own.copy(terms, atom)?;
            most.push((copy, count))?;
        }
    }
    Ok(Counted {
        cases,
        splits,
        terms: own,
        atoms: most,
    })
}

// Counts the splits of a node and of those below it.
fn count(
    terms: &mut Terms,
    known: &mut KnownForms,
    cond: &Cond,
    spot: Spot,
    room: u32,
    tally: &mut Tally,
) -> Result<(), NoMemory>
    requires types { AreTypesBelow (length terms.old) cond.now }
    requires spot { IsSpot terms.old spot }
    requires known { AreKnown terms.old known.old }
    ensures known { OnOk result (AreKnown terms.new known.new) }
    ensures stays { Stays terms.old terms.new }
{
    if room == 0 || tally.cases >= tally.most {
        return Ok(());
    }
    match what_follows(terms, known, cond, spot)? {
        Next::Closed | Next::Open(_, _) => {
            tally.cases = tally.cases.saturating_add(1);
            Ok(())
        }
        Next::GoesOn(more) => count(terms, known, cond, more, room - 1, tally),
        Next::Splits(first, second) => {
            let size = first.branch.literals.len();
            if size > 0 {
                let (atom, _) = nth_literal(terms, &first.branch, size - 1);
                note(tally, atom)?;
            }
            count(terms, known, cond, first, room - 1, tally)?;
            count(terms, known, cond, second, room - 1, tally)
        }
    }
}

// A split more, on this atom.
fn note(tally: &mut Tally, atom: u32) -> Result<(), NoMemory> {
    tally.splits = tally.splits.saturating_add(1);
    for number in 0..tally.atoms.len() {
        let (other, count) = tally.atoms[number];
        if other == atom {
            tally.atoms[number] = (other, count.saturating_add(1));
            return Ok(());
        }
    }
    tally.atoms.push((atom, 1))?;
    Ok(())
}
