//! Lists that have each term, atom or conjunct once, in the order in which they came.
ghost use Rattle.std.specs.Prelude.{◌≡◌, IfOk};
ghost use Rattle.wy_types.specs.Conjuncts.{same_term};
ghost use Rattle.wy_types.specs.Same as same;

use crate::copies::{copy_atom, copy_conjunct, copy_signed};
use crate::numbered::NumberedConjuncts;
use std::alloc::{AllocError, Global};
use wy_items::Items;
use wy_types::{Atom, Conjunct, Signed, has_atom, has_conjunct, has_signed};

/// The terms, and this one if it isn't there.
pub fn with_signed(
    all: Items<Signed<u32>>,
    signed: Signed<u32>,
) -> Result<Items<Signed<u32>>, AllocError>
    ensures value { IfOk result (λ made. made ≡ same.with_signed same_term all signed) }
{
    let mut all = all;
    if has_signed(all.as_slice(), &signed) {
        return Ok(all);
    }
    all.push(signed)?;
    Ok(all)
}

/// Both lists, each term once.
pub fn united(
    first: Items<Signed<u32>>,
    more: &[Signed<u32>],
) -> Result<Items<Signed<u32>>, AllocError>
    ensures value { IfOk result (λ made. made ≡ same.united same_term first more.now) }
{
    let mut all = first;
    for signed in more {
        all = with_signed(all, copy_signed(signed))?;
    }
    Ok(all)
}

fn with_atom(all: Items<Atom<u32>>, atom: Atom<u32>) -> Result<Items<Atom<u32>>, AllocError>
    ensures value { IfOk result (λ made. made ≡ same.with_atom same_term all atom) }
{
    let mut all = all;
    if has_atom(all.as_slice(), &atom) {
        return Ok(all);
    }
    all.push(atom)?;
    Ok(all)
}

/// Both lists, each atom once.
pub fn united_atoms(
    alloc: Global,
    first: Items<Atom<u32>>,
    more: &[Atom<u32>],
) -> Result<Items<Atom<u32>>, AllocError>
    ensures value { IfOk result (λ made. made ≡ same.united_atoms same_term first more.now) }
{
    let mut all = first;
    for atom in more {
        all = with_atom(all, copy_atom(alloc, atom)?)?;
    }
    Ok(all)
}

/// The conjuncts, and this one if it isn't there. They are looked through one by one.
pub fn with_one(
    all: Items<Conjunct<u32>>,
    conjunct: Conjunct<u32>,
) -> Result<Items<Conjunct<u32>>, AllocError>
    ensures value { IfOk result (λ made. made ≡ same.with_conjunct same_term all conjunct) }
{
    let mut all = all;
    if has_conjunct(all.as_slice(), &conjunct) {
        return Ok(all);
    }
    all.push(conjunct)?;
    Ok(all)
}

/// The conjuncts, and this one if it isn't there, in expected time linear in its size.
pub fn with_conjunct(
    all: NumberedConjuncts,
    conjunct: Conjunct<u32>,
) -> Result<NumberedConjuncts, AllocError>
    ensures value { IfOk result (λ made. made ≡ same.with_conjunct same_term all conjunct) }
{
    let mut all = all;
    if all.place(&conjunct).is_some() {
        return Ok(all);
    }
    all.push(conjunct)?;
    Ok(all)
}

// Both lists, each conjunct once, where the second is short.
fn united_few(
    alloc: Global,
    first: Items<Conjunct<u32>>,
    more: &[Conjunct<u32>],
) -> Result<Items<Conjunct<u32>>, AllocError>
    ensures value { IfOk result (λ made. made ≡ same.united_conjuncts same_term first more.now) }
{
    let mut all = first;
    for conjunct in more {
        all = with_one(all, copy_conjunct(alloc, conjunct)?)?;
    }
    Ok(all)
}

// Both lists, each conjunct once, where the second is long.
fn united_many(
    alloc: Global,
    first: NumberedConjuncts,
    more: &[Conjunct<u32>],
) -> Result<NumberedConjuncts, AllocError>
    ensures value { IfOk result (λ made. made ≡ same.united_conjuncts same_term first more.now) }
{
    let mut all = first;
    for conjunct in more {
        all = with_conjunct(all, copy_conjunct(alloc, conjunct)?)?;
    }
    Ok(all)
}

/// Both lists, each conjunct once, in expected time linear in their sizes.
pub fn united_conjuncts(
    alloc: Global,
    first: Items<Conjunct<u32>>,
    more: &[Conjunct<u32>],
) -> Result<Items<Conjunct<u32>>, AllocError>
    ensures value { IfOk result (λ made. made ≡ same.united_conjuncts same_term first more.now) }
{
    if more.len() <= 8 {
        return united_few(alloc, first, more);
    }
    let all = NumberedConjuncts::from_items(alloc, first)?;
    let all = united_many(alloc, all, more)?;
    Ok(all.into_items())
}
