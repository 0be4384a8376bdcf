//! Copies of conjuncts of numbers.
ghost use Rattle.std.specs.Prelude.{◌≡◌, IfOk};

use std::alloc::{AllocError, Global};
use wy_data::Name;
use wy_items::Items;
use wy_types::{Atom, Conjunct, Part, Signed};

/// The same once more.
pub fn copy_signed(signed: &Signed<u32>) -> Signed<u32>
    ensures value { result ≡ signed.now }
{
    Signed {
        term: signed.term,
        up: signed.up,
        inside: signed.inside,
    }
}

/// The same list once more.
pub fn copy_terms(alloc: Global, all: &[Signed<u32>]) -> Result<Items<Signed<u32>>, AllocError>
    ensures value { IfOk result (λ made. made ≡ all.now) }
{
    let mut made = Items::new(alloc);
    for signed in all {
        made.push(copy_signed(signed))?;
    }
    Ok(made)
}

/// The same once more.
pub fn copy_part(alloc: Global, part: &Part<u32>) -> Result<Part<u32>, AllocError>
    ensures value { IfOk result (λ copy. copy ≡ part.now) }
{
    Ok(Part {
        terms: copy_terms(alloc, part.terms.as_slice())?,
    })
}

/// The same fields once more.
pub fn copy_fields(
    alloc: Global,
    all: &[(Name, Part<u32>)],
) -> Result<Items<(Name, Part<u32>)>, AllocError>
    ensures value { IfOk result (λ made. made ≡ all.now) }
{
    let mut made = Items::new(alloc);
    for field in all {
        made.push((field.0.copy(alloc)?, copy_part(alloc, &field.1)?))?;
    }
    Ok(made)
}

/// The same once more.
pub fn copy_atom(alloc: Global, atom: &Atom<u32>) -> Result<Atom<u32>, AllocError>
    ensures value { IfOk result (λ copy. copy ≡ atom.now) }
{
    match atom {
        Atom::Null => Ok(Atom::Null),
        Atom::Bool => Ok(Atom::Bool),
        Atom::Int => Ok(Atom::Int),
        Atom::Array(part) => Ok(Atom::Array(copy_part(alloc, part)?)),
        Atom::Record(fields) => Ok(Atom::Record(copy_fields(alloc, fields.as_slice())?)),
        Atom::AnyRecord => Ok(Atom::AnyRecord),
    }
}

/// The same list once more.
pub fn copy_atoms(alloc: Global, all: &[Atom<u32>]) -> Result<Items<Atom<u32>>, AllocError>
    ensures value { IfOk result (λ made. made ≡ all.now) }
{
    let mut made = Items::new(alloc);
    for atom in all {
        made.push(copy_atom(alloc, atom)?)?;
    }
    Ok(made)
}

/// The same once more.
pub fn copy_conjunct(alloc: Global, conjunct: &Conjunct<u32>) -> Result<Conjunct<u32>, AllocError>
    ensures value { IfOk result (λ copy. copy ≡ conjunct.now) }
{
    Ok(Conjunct {
        positive: copy_atom(alloc, &conjunct.positive)?,
        negatives: copy_atoms(alloc, conjunct.negatives.as_slice())?,
    })
}
