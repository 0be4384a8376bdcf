//! Ways of records with another part at a field.
ghost use Rattle.std.specs.Prelude.{◌≡◌, [], IfOk};
ghost use Rattle.wy_subtype_parts.specs.updates.Updates as spec;

use std::alloc::{AllocError, Global};
use wy_data::Name;
use wy_items::Items;
use wy_subtype::{Atom, Conjunct, Part, Signed, copy_part, copy_terms, united_conjuncts};

// The part of a field, or the terms where it is the field that is replaced.
fn part_at(
    alloc: Global,
    name: &Name,
    terms: &[Signed<u32>],
    field: &(Name, Part<u32>),
) -> Result<Part<u32>, AllocError>
    ensures value { IfOk result (λ part. part ≡ spec.part_at name.now terms.now field.now) }
{
    if field.0.is(name) {
        return Ok(Part {
            terms: copy_terms(alloc, terms)?,
        });
    }
    copy_part(alloc, &field.1)
}

/// The fields of a way, with these terms at one of them.
pub fn replaced(
    alloc: Global,
    name: &Name,
    terms: &[Signed<u32>],
    way: &[(Name, Part<u32>)],
) -> Result<Items<(Name, Part<u32>)>, AllocError>
    ensures value { IfOk result (λ made. made ≡ spec.replaced name.now terms.now way.now) }
{
    let mut made = Items::new(alloc);
    for field in way {
        let copy = field.0.copy(alloc)?;
        let part = part_at(alloc, name, terms, field)?;
        made.push((copy, part))?;
    }
    Ok(made)
}

// The conjuncts, and the record of these fields where it isn't among them.
fn with_record(
    alloc: Global,
    made: Items<Conjunct<u32>>,
    fields: Items<(Name, Part<u32>)>,
) -> Result<Items<Conjunct<u32>>, AllocError>
    ensures value { IfOk result (λ all. all ≡ spec.with_record made fields) }
{
    let mut one = Items::new(alloc);
    one.push(Conjunct {
        positive: Atom::Record(fields),
        negatives: Items::new(alloc),
    })?;
    united_conjuncts(alloc, made, one.as_slice())
}

/// The records of the ways, each once, with these terms at a field.
pub fn records_of(
    alloc: Global,
    name: &Name,
    terms: &[Signed<u32>],
    ways: &[Items<(Name, Part<u32>)>],
) -> Result<Items<Conjunct<u32>>, AllocError>
    ensures value { IfOk result (λ all. all ≡ spec.records_of name.now terms.now [] ways.now) }
{
    let mut all = Items::new(alloc);
    for way in ways {
        let fields = replaced(alloc, name, terms, way.as_slice())?;
        all = with_record(alloc, all, fields)?;
    }
    Ok(all)
}
