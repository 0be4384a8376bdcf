//! How many ways a record without records has. Numbers above the limit are all the same here.
ghost use Rattle.std.specs.Prelude.{◌≡◌, ◌+◌, ◌*◌};
ghost use Rattle.wy_subtype.specs.Ways.{cap};
ghost use Rattle.wy_canon.specs.wy_types.Asks as asks;

use wy_canon::{Atom, Conjunct, LIMIT, Part, same_names};
use wy_data::Name;

fn capped(count: usize) -> usize
    ensures value { result ≡ cap count }
{
    if LIMIT < count { LIMIT + 1 } else { count }
}

#[tactic(auto, using(crate::proofs::WayLemmas::cap_large))]
fn sum(a: usize, b: usize) -> usize
    ensures value { result ≡ cap (a + b) }
{
    match a.checked_add(b) {
        None => LIMIT + 1,
        Some(count) => capped(count),
    }
}

#[tactic(auto, using(crate::proofs::WayLemmas::cap_large))]
fn product(a: usize, b: usize) -> usize
    ensures value { result ≡ cap (a * b) }
{
    match a.checked_mul(b) {
        None => LIMIT + 1,
        Some(count) => capped(count),
    }
}

// How many members the parts have.
#[tactic(auto, using(crate::proofs::WayLemmas::cap_sum, crate::proofs::WayLemmas::cap_sum_zero))]
fn members(fields: &[(Name, Part<u32>)]) -> usize
    ensures value { result ≡ cap (asks.members_of fields.now) }
{
    let mut count = 0usize;
    for field in fields {
        count = sum(count, field.1.terms.len());
    }
    capped(count)
}

// In how many ways an atom is given to a field.
fn ways_by(fields: &[(Name, Part<u32>)], atom: &Atom<u32>) -> usize
    ensures value { result ≡ cap (asks.ways_by fields.now atom.now) }
{
    match atom {
        Atom::Record(others) => {
            if same_names(fields, others.as_slice()) {
                return members(others.as_slice());
            }
            1
        }
        Atom::AnyRecord => 0,
        _ => 1,
    }
}

// In how many ways all negatives are.
#[tactic(auto, using(crate::proofs::WayLemmas::ways_turn, crate::proofs::WayLemmas::cap_product_one))]
fn ways_count(fields: &[(Name, Part<u32>)], negatives: &[Atom<u32>]) -> usize
    ensures value { result ≡ cap (asks.ways_count fields.now negatives.now) }
{
    let mut count = 1usize;
    for atom in negatives {
        count = product(count, ways_by(fields, atom));
    }
    capped(count)
}

/// Whether the conjunct has at most 16,384 ways, in time linear in its size.
#[tactic(auto, using(crate::proofs::WayLemmas::leb_cap))]
pub fn few_ways(conjunct: &Conjunct<u32>) -> bool
    ensures value { result ≡ asks.few_ways conjunct.now }
{
    match &conjunct.positive {
        Atom::Record(fields) => {
            ways_count(fields.as_slice(), conjunct.negatives.as_slice()) <= LIMIT
        }
        _ => true,
    }
}
