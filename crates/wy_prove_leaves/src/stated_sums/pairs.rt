//! Multipliers beside the numbers of literals.
ghost use Rattle.std.specs.Prelude.{◌≡◌, true, option_map, IfOk, slice_index_or};
ghost use Rattle.wy_search_spec.specs.Bounds.{all_fit};
ghost use Rattle.wy_prove_leaves.specs.stated_sums.Cuts as cuts;
ghost use Rattle.wy_prove_leaves.specs.stated_sums.Named as named;

use std::alloc::Global;
use wy_term::NoMemory;

// The number at a place, 0 where there is none.
fn number_at(numbers: &[u32], place: u32) -> u32
    ensures { result ≡ slice_index_or numbers.now place 0 }
{
    match numbers.get(place as usize) {
        Some(k) => *k,
        None => 0,
    }
}

/// The multipliers, each beside the number at its place, in time linear in them.
pub fn with_numbers(
    alloc: Global,
    numbers: &[u32],
    multipliers: &[(u128, u32)],
) -> Result<Vec<(u128, u32)>, NoMemory>
    ensures { IfOk result (λ made. made.items ≡ named.with_numbers numbers.now multipliers.now) }
{
    let mut made = Vec::new(alloc);
    for m in multipliers {
        made.push((m.0, number_at(numbers, m.1)))?;
    }
    Ok(made)
}

/// Each multiplier twice, where that fits 128 bits, in time linear in them.
pub fn twice(alloc: Global, pairs: &[(u128, u32)]) -> Result<Option<Vec<(u128, u32)>>, NoMemory>
    ensures { all_fit (cuts.twice pairs.now) ≡ true → IfOk result (λ o. cuts.ArePairs (cuts.twice pairs.now) (option_map (λ v. v.items) o)) }
{
    let mut made = Vec::new(alloc);
    for pair in pairs {
        match pair.0.checked_mul(2) {
            Some(m) => made.push((m, pair.1))?,
            None => return Ok(None),
        }
    }
    Ok(Some(made))
}
