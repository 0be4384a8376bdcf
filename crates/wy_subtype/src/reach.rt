//! The conjuncts and parts that a question reaches, each met once.
ghost use Rattle.std.specs.Prelude.{◌≡◌, ◌++◌, ◌<◌, ◌≤◌, ℕ, [], ◌∷◌, length, true, false, Some, None, IfOk, IfSome, slice_get, is_some};
ghost use Rattle.wy_subtype.specs.Known as known;
ghost use Rattle.wy_canon.specs.wy_types.Asks.{few_ways};
ghost use Rattle.wy_canon.specs.wy_types.Claims.{AreDifferent, EachOf};
ghost use Rattle.wy_canon.specs.wy_types.Conjuncts.{same_term};
ghost use Rattle.wy_canon.specs.wy_types.Reach.{Reaches, IsNeeded, IsWide};
ghost use Rattle.wy_canon.specs.wy_types.Same as same;

use crate::asks::options_of;
use crate::ways::few_ways;
use std::alloc::{AllocError, Global};
use wy_canon::{
    Conjunct, LIMIT, NumberedConjuncts, NumberedParts, Signed, Table, TypeFault, copy_conjunct,
    copy_terms, dnf_part,
};
use wy_items::Items;

/// Conjuncts, with the number of one of them.
#[derive(Drop)]
pub struct Interned {
    pub conjuncts: NumberedConjuncts,
    pub number: u32,
}

/// Conjuncts, with the numbers of some of them.
#[derive(Drop)]
pub struct InternedAll {
    pub conjuncts: NumberedConjuncts,
    pub numbers: Items<u32>,
}

/// Parts with the numbers of their conjuncts, and conjuncts with the numbers of the parts that they
/// ask.
#[derive(Drop)]
pub struct Reach {
    pub parts: NumberedParts,
    pub heads: Items<Items<u32>>,
    pub conjuncts: NumberedConjuncts,
    pub asks: Items<Items<Items<Items<u32>>>>,
}

/// What is reached, with the number of a part.
#[derive(Drop)]
pub struct Added {
    pub reach: Reach,
    pub number: u32,
}

/// What is reached, with the numbers of parts.
#[derive(Drop)]
pub struct AddedList {
    pub reach: Reach,
    pub numbers: Items<u32>,
}

/// What is reached, with the numbers of lists of parts.
#[derive(Drop)]
pub struct AddedEach {
    pub reach: Reach,
    pub numbers: Items<Items<u32>>,
}

/// What is reached, with the numbers of what a conjunct asks.
#[derive(Drop)]
pub struct AddedOptions {
    pub reach: Reach,
    pub numbers: Items<Items<Items<u32>>>,
}

// The conjunct's number, which it gets if it has none.
fn intern(
    _table: &Table,
    _depth: u32,
    _first: &[Signed<u32>],
    conjuncts: NumberedConjuncts,
    conjunct: Conjunct<u32>,
) -> Result<Interned, TypeFault>
    requires different { AreDifferent conjuncts }
    requires reached { EachOf (Reaches _table.now _depth _first.now) conjuncts }
    requires new { Reaches _table.now _depth _first.now conjunct }
    ensures known { IfOk result (known.IsInterned _table.now _depth _first.now conjuncts conjunct) }
    ensures wide { known.WideOnly result (IsWide _table.now _depth _first.now) }
{
    let mut conjuncts = conjuncts;
    if let Some(number) = conjuncts.place(&conjunct) {
        return match u32::try_from(number) {
            Ok(number) => Ok(Interned { conjuncts, number }),
            Err(_) => Err(TypeFault::NoMemory),
        };
    }
    if LIMIT <= conjuncts.len() {
        return Err(TypeFault::TypeWide);
    }
    let number = conjuncts.len() as u32;
    conjuncts.push(conjunct)?;
    Ok(Interned { conjuncts, number })
}

// The numbers of all these conjuncts.
fn intern_all(
    alloc: Global,
    table: &Table,
    depth: u32,
    first: &[Signed<u32>],
    conjuncts: NumberedConjuncts,
    list: &[Conjunct<u32>],
) -> Result<InternedAll, TypeFault>
    requires different { AreDifferent conjuncts }
    requires reached { EachOf (Reaches table.now depth first.now) conjuncts }
    requires new { EachOf (Reaches table.now depth first.now) list.now }
    ensures known { IfOk result (known.AreInterned table.now depth first.now conjuncts list.now) }
    ensures wide { known.WideOnly result (IsWide table.now depth first.now) }
{
    let mut conjuncts = conjuncts;
    let mut numbers = Items::new(alloc);
    for c in list {
        let c = copy_conjunct(alloc, c)?;
        let Interned {
            conjuncts: grown,
            number,
        } = intern(table, depth, first, conjuncts, c)?;
        conjuncts = grown;
        numbers.push(number)?;
    }
    Ok(InternedAll { conjuncts, numbers })
}

// The part's number, which it gets, with its conjuncts, if it has none.
fn add_part(
    alloc: Global,
    table: &Table,
    depth: u32,
    first: &[Signed<u32>],
    reach: Reach,
    part: Items<Signed<u32>>,
) -> Result<Added, TypeFault>
    requires known { known.IsKnown table.now depth first.now reach }
    requires needed { IsNeeded table.now depth first.now part }
    ensures known { IfOk result (known.IsAdded table.now depth first.now reach part) }
    ensures wide { known.WideOnly result (IsWide table.now depth first.now) }
{
    if let Some(number) = reach.parts.place(part.as_slice()) {
        return match u32::try_from(number) {
            Ok(number) => Ok(Added { reach, number }),
            Err(_) => Err(TypeFault::NoMemory),
        };
    }
    let made = dnf_part(alloc, table, depth, part.as_slice())?;
    let Reach {
        mut parts,
        mut heads,
        conjuncts,
        asks,
    } = reach;
    let InternedAll { conjuncts, numbers } = intern_all(
        alloc,
        table,
        depth,
        first,
        conjuncts,
        made.as_slice(),
    )?;
    let count = parts.len();
    if count > 4294967295 {
        return Err(TypeFault::NoMemory);
    }
    let number = count as u32;
    heads.push(numbers)?;
    parts.push(part)?;
    Ok(Added {
        reach: Reach {
            parts,
            heads,
            conjuncts,
            asks,
        },
        number,
    })
}

fn add_list(
    alloc: Global,
    table: &Table,
    depth: u32,
    first: &[Signed<u32>],
    reach: Reach,
    list: &[Items<Signed<u32>>],
) -> Result<AddedList, TypeFault>
    requires known { known.IsKnown table.now depth first.now reach }
    requires needed { EachOf (IsNeeded table.now depth first.now) list.now }
    ensures known { IfOk result (known.AreAdded table.now depth first.now reach list.now) }
    ensures wide { known.WideOnly result (IsWide table.now depth first.now) }
{
    let mut reach = reach;
    let mut numbers = Items::new(alloc);
    for part in list {
        let part = copy_terms(alloc, part.as_slice())?;
        let Added {
            reach: grown,
            number,
        } = add_part(alloc, table, depth, first, reach, part)?;
        reach = grown;
        numbers.push(number)?;
    }
    Ok(AddedList { reach, numbers })
}

fn add_each(
    alloc: Global,
    table: &Table,
    depth: u32,
    first: &[Signed<u32>],
    reach: Reach,
    lists: &[Items<Items<Signed<u32>>>],
) -> Result<AddedEach, TypeFault>
    requires known { known.IsKnown table.now depth first.now reach }
    requires needed { EachOf (EachOf (IsNeeded table.now depth first.now)) lists.now }
    ensures known { IfOk result (known.AreEachAdded table.now depth first.now reach lists.now) }
    ensures wide { known.WideOnly result (IsWide table.now depth first.now) }
{
    let mut reach = reach;
    let mut numbers = Items::new(alloc);
    for list in lists {
        let AddedList {
            reach: grown,
            numbers: more,
        } = add_list(alloc, table, depth, first, reach, list.as_slice())?;
        reach = grown;
        numbers.push(more)?;
    }
    Ok(AddedEach { reach, numbers })
}

fn add_options(
    alloc: Global,
    table: &Table,
    depth: u32,
    first: &[Signed<u32>],
    reach: Reach,
    options: &[Items<Items<Items<Signed<u32>>>>],
) -> Result<AddedOptions, TypeFault>
    requires known { known.IsKnown table.now depth first.now reach }
    requires needed { EachOf (EachOf (EachOf (IsNeeded table.now depth first.now))) options.now }
    ensures known { IfOk result (known.AreAllAdded table.now depth first.now reach options.now) }
    ensures wide { known.WideOnly result (IsWide table.now depth first.now) }
{
    let mut reach = reach;
    let mut numbers = Items::new(alloc);
    for each in options {
        let AddedEach {
            reach: grown,
            numbers: more,
        } = add_each(alloc, table, depth, first, reach, each.as_slice())?;
        reach = grown;
        numbers.push(more)?;
    }
    Ok(AddedOptions { reach, numbers })
}

fn with_asks(reach: Reach, numbers: Items<Items<Items<u32>>>) -> Result<Reach, AllocError>
    ensures value { IfOk result (λ r. r ≡ known.asking reach numbers) }
{
    let Reach {
        parts,
        heads,
        conjuncts,
        mut asks,
    } = reach;
    asks.push(numbers)?;
    Ok(Reach {
        parts,
        heads,
        conjuncts,
        asks,
    })
}

// What the conjunct asks, where it has few ways.
#[tactic(auto, using(crate::proofs::KnownLemmas::wide_ways))]
fn few_options(
    alloc: Global,
    table: &Table,
    depth: u32,
    _first: &[Signed<u32>],
    conjunct: &Conjunct<u32>,
) -> Result<Items<Items<Items<Items<Signed<u32>>>>>, TypeFault>
    requires { Reaches table.now depth _first.now conjunct.now }
    ensures value { IfOk result (λ made. made ≡ known.options_of table.now depth conjunct.now) }
    ensures few { IfOk result (λ made. few_ways conjunct.now ≡ true) }
    ensures wide { known.WideOnly result (IsWide table.now depth _first.now) }
{
    if !few_ways(conjunct) {
        return Err(TypeFault::TypeWide);
    }
    let options = options_of(
        alloc,
        table,
        depth,
        &conjunct.positive,
        conjunct.negatives.as_slice(),
    )?;
    Ok(options)
}

/// All conjuncts and parts that a part reaches, each part decomposed once. An equal part or conjunct
/// is found by its digest, in expected time linear in its own size.
pub fn reach_of(
    alloc: Global,
    table: &Table,
    depth: u32,
    first: &[Signed<u32>],
) -> Result<Added, TypeFault>
    ensures known { IfOk result (λ x. known.IsReach table.now depth first.now x.reach x.number) }
    ensures wide { known.WideOnly result (IsWide table.now depth first.now) }
{
    let nothing = Reach {
        parts: NumberedParts::new(alloc),
        heads: Items::new(alloc),
        conjuncts: NumberedConjuncts::new(alloc),
        asks: Items::new(alloc),
    };
    let part = copy_terms(alloc, first)?;
    let Added {
        reach: started,
        number,
    } = add_part(alloc, table, depth, first, nothing, part)?;
    let mut reach = started;
    for j in 0..LIMIT + 1 {
        let c = match reach.conjuncts.get(j) {
            None => return Ok(Added { reach, number }),
            Some(c) => copy_conjunct(alloc, c)?,
        };
        let options = few_options(alloc, table, depth, first, &c)?;
        let AddedOptions {
            reach: grown,
            numbers,
        } = add_options(alloc, table, depth, first, reach, options.as_slice())?;
        reach = with_asks(grown, numbers)?;
    }
    Err(TypeFault::TypeWide)
}
