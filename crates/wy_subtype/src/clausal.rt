//! What parts and conjuncts ask, as clauses.
ghost use Rattle.std.specs.Prelude.{◌≡◌, ◌+◌, ◌++◌, ◌∷◌, [], length, IfOk};
ghost use Rattle.wy_subtype.specs.Clausal as clausal;

use crate::reach::Reach;
use std::alloc::{AllocError, Global};
use wy_graph::closure::Clause;
use wy_items::Items;

fn small(number: usize) -> Result<u32, AllocError>
    ensures value { IfOk result (λ n. n ≡ number) }
{
    match u32::try_from(number) {
        Err(_) => Err(AllocError),
        Ok(number) => Ok(number),
    }
}

fn sum(base: u32, number: u32) -> Result<u32, AllocError>
    ensures value { IfOk result (λ n. n ≡ base + number) }
{
    match base.checked_add(number) {
        None => Err(AllocError),
        Some(sum) => Ok(sum),
    }
}

fn shifted(alloc: Global, base: u32, numbers: &[u32]) -> Result<Items<u32>, AllocError>
    ensures value { IfOk result (λ made. made ≡ clausal.shifted base numbers.now) }
{
    let mut made = Items::new(alloc);
    for number in numbers {
        made.push(sum(base, *number)?)?;
    }
    Ok(made)
}

fn part_clause(alloc: Global, base: u32, number: usize, head: &[u32]) -> Result<Clause, AllocError>
    ensures value { IfOk result (λ made. made ≡ clausal.clause number (clausal.shifted base head.now ∷ [])) }
{
    let mut body = Items::new(alloc);
    body.push(shifted(alloc, base, head)?)?;
    Ok(Clause {
        head: small(number)?,
        body,
    })
}

fn part_clauses(alloc: Global, base: u32, heads: &[Items<u32>]) -> Result<Items<Clause>, AllocError>
    ensures value { IfOk result (λ made. made ≡ clausal.part_clauses base 0 heads.now) }
{
    let mut made = Items::new(alloc);
    for (number, head) in heads.iter().enumerate() {
        made.push(part_clause(alloc, base, number, head.as_slice())?)?;
    }
    Ok(made)
}

fn copy_lists(alloc: Global, lists: &[Items<u32>]) -> Result<Items<Items<u32>>, AllocError>
    ensures value { IfOk result (λ made. made ≡ lists.now) }
{
    let mut made = Items::new(alloc);
    for list in lists {
        made.push(Items::from_slice(alloc, list.as_slice())?)?;
    }
    Ok(made)
}

fn option_clauses(
    alloc: Global,
    head: u32,
    options: &[Items<Items<u32>>],
) -> Result<Items<Clause>, AllocError>
    ensures value { IfOk result (λ made. made ≡ clausal.option_clauses head options.now) }
{
    let mut made = Items::new(alloc);
    for option in options {
        let body = copy_lists(alloc, option.as_slice())?;
        made.push(Clause { head, body })?;
    }
    Ok(made)
}

fn ask_clauses(
    alloc: Global,
    base: u32,
    asks: &[Items<Items<Items<u32>>>],
) -> Result<Items<Clause>, AllocError>
    ensures value { IfOk result (λ made. made ≡ clausal.ask_clauses base 0 asks.now) }
{
    let mut made = Items::new(alloc);
    for (number, options) in asks.iter().enumerate() {
        let head = sum(base, small(number)?)?;
        made.append(option_clauses(alloc, head, options.as_slice())?)?;
    }
    Ok(made)
}

/// The clauses of all parts and then of all conjuncts. The base is the number of parts.
pub fn clauses_of(alloc: Global, base: u32, reach: &Reach) -> Result<Items<Clause>, AllocError>
    ensures value { IfOk result (λ made. made ≡ clausal.part_clauses base 0 reach.now.heads ++ clausal.ask_clauses base 0 reach.now.asks) }
{
    let mut made = part_clauses(alloc, base, reach.heads.as_slice())?;
    made.append(ask_clauses(alloc, base, reach.asks.as_slice())?)?;
    Ok(made)
}

/// How many parts there are.
pub fn part_count(reach: &Reach) -> Result<u32, AllocError>
    ensures value { IfOk result (λ n. n ≡ length reach.now.parts) }
{
    small(reach.parts.len())
}

/// The sum of two counts.
pub fn total(a: usize, b: usize) -> Result<usize, AllocError>
    ensures value { IfOk result (λ n. n ≡ a + b) }
{
    match a.checked_add(b) {
        None => Err(AllocError),
        Some(sum) => Ok(sum),
    }
}
