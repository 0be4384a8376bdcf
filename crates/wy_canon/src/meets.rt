//! What two conjuncts, or two lists of them, have in common.
ghost use Rattle.std.specs.Prelude.{◌≡◌, ◌++◌, [], IfOk};
ghost use Rattle.std.specs.Option.{option_to_list};
ghost use Rattle.wy_canon.specs.Width.{Exactly};
ghost use Rattle.wy_types.specs.Conjuncts.{same_term};
ghost use Rattle.wy_types.specs.Merge as merging;

use crate::copies::{copy_atom, copy_atoms, copy_fields, copy_part, copy_terms};
use crate::fault::TypeFault;
use crate::lists::{united, united_atoms, united_conjuncts, with_conjunct};
use crate::numbered::NumberedConjuncts;
use std::alloc::{AllocError, Global};
use wy_data::Name;
use wy_items::Items;
use wy_types::{Atom, Conjunct, Part};

/// How many pairs a merge may have, and how many conjuncts a question may reach.
pub const LIMIT: usize = 16384;

/// Whether both records have the same names.
pub fn same_names(xs: &[(Name, Part<u32>)], ys: &[(Name, Part<u32>)]) -> bool
    ensures value { result ≡ merging.same_names xs.now ys.now }
{
    let mut rest = ys;
    for x in xs {
        match rest {
            [] => return false,
            [y, others @ ..] => {
                if !x.0.is(&y.0) {
                    return false;
                }
                rest = others;
            }
        }
    }
    rest.is_empty()
}

fn united_part(
    alloc: Global,
    first: &Part<u32>,
    second: &Part<u32>,
) -> Result<Part<u32>, AllocError>
    ensures value { IfOk result (λ made. made ≡ merging.united_part same_term first.now second.now) }
{
    let terms = copy_terms(alloc, first.terms.as_slice())?;
    Ok(Part {
        terms: united(terms, second.terms.as_slice())?,
    })
}

// Both records' parts, name by name.
fn united_fields(
    alloc: Global,
    xs: &[(Name, Part<u32>)],
    ys: &[(Name, Part<u32>)],
) -> Result<Items<(Name, Part<u32>)>, AllocError>
    ensures value { IfOk result (λ made. made ≡ merging.united_fields same_term xs.now ys.now) }
{
    let mut made = Items::new(alloc);
    let mut rest = ys;
    for x in xs {
        match rest {
            [] => return Ok(made),
            [y, others @ ..] => {
                let part = united_part(alloc, &x.1, &y.1)?;
                made.push((x.0.copy(alloc)?, part))?;
                rest = others;
            }
        }
    }
    Ok(made)
}

// What both atoms have in common.
fn meet(alloc: Global, a: &Atom<u32>, b: &Atom<u32>) -> Result<Option<Atom<u32>>, AllocError>
    ensures value { IfOk result (λ met. option_to_list met ≡ merging.meet same_term a.now b.now) }
{
    match (a, b) {
        (Atom::Null, Atom::Null) => Ok(Some(Atom::Null)),
        (Atom::Bool, Atom::Bool) => Ok(Some(Atom::Bool)),
        (Atom::Int, Atom::Int) => Ok(Some(Atom::Int)),
        (Atom::Array(p), Atom::Array(q)) => Ok(Some(Atom::Array(united_part(alloc, p, q)?))),
        (Atom::Record(xs), Atom::Record(ys)) => {
            if !same_names(xs.as_slice(), ys.as_slice()) {
                return Ok(None);
            }
            let fields = united_fields(alloc, xs.as_slice(), ys.as_slice())?;
            Ok(Some(Atom::Record(fields)))
        }
        (Atom::Record(xs), Atom::AnyRecord) => {
            Ok(Some(Atom::Record(copy_fields(alloc, xs.as_slice())?)))
        }
        (Atom::AnyRecord, Atom::Record(ys)) => {
            Ok(Some(Atom::Record(copy_fields(alloc, ys.as_slice())?)))
        }
        (Atom::AnyRecord, Atom::AnyRecord) => Ok(Some(Atom::AnyRecord)),
        _ => Ok(None),
    }
}

fn fits(fields: &[(Name, Part<u32>)], atom: &Atom<u32>) -> bool
    ensures value { result ≡ merging.fits_atom fields.now atom.now }
{
    match atom {
        Atom::Record(others) => same_names(fields, others.as_slice()),
        _ => true,
    }
}

fn fitting(
    alloc: Global,
    fields: &[(Name, Part<u32>)],
    made: Items<Atom<u32>>,
    negatives: &[Atom<u32>],
) -> Result<Items<Atom<u32>>, AllocError>
    ensures value { IfOk result (λ all. all ≡ made ++ merging.fitting fields.now negatives.now) }
{
    let mut made = made;
    for atom in negatives {
        if fits(fields, atom) {
            made.push(copy_atom(alloc, atom)?)?;
        }
    }
    Ok(made)
}

// The negatives that the positive atom keeps: of a record with names, those with the same names.
fn kept(
    alloc: Global,
    positive: &Atom<u32>,
    negatives: Items<Atom<u32>>,
) -> Result<Items<Atom<u32>>, AllocError>
    ensures value { IfOk result (λ all. all ≡ merging.kept positive.now negatives) }
{
    match positive {
        Atom::Record(fields) => {
            let nothing = Items::new(alloc);
            fitting(alloc, fields.as_slice(), nothing, negatives.as_slice())
        }
        _ => Ok(negatives),
    }
}

// The list, and what both conjuncts have in common.
fn with_pair(
    alloc: Global,
    made: NumberedConjuncts,
    x: &Conjunct<u32>,
    y: &Conjunct<u32>,
) -> Result<NumberedConjuncts, AllocError>
    ensures value { IfOk result (λ all. all ≡ merging.with_pair same_term made x.now y.now) }
{
    match meet(alloc, &x.positive, &y.positive)? {
        None => Ok(made),
        Some(positive) => {
            let first = copy_atoms(alloc, x.negatives.as_slice())?;
            let negatives = united_atoms(alloc, first, y.negatives.as_slice())?;
            let negatives = kept(alloc, &positive, negatives)?;
            with_conjunct(
                made,
                Conjunct {
                    positive,
                    negatives,
                },
            )
        }
    }
}

fn with_pairs(
    alloc: Global,
    made: NumberedConjuncts,
    x: &Conjunct<u32>,
    ys: &[Conjunct<u32>],
) -> Result<NumberedConjuncts, AllocError>
    ensures value { IfOk result (λ all. all ≡ merging.with_pairs same_term made x.now ys.now) }
{
    let mut made = made;
    for y in ys {
        made = with_pair(alloc, made, x, y)?;
    }
    Ok(made)
}

/// What one of each list have in common, all pairs in order, each conjunct once.
pub fn merge(
    alloc: Global,
    xs: &[Conjunct<u32>],
    ys: &[Conjunct<u32>],
) -> Result<Items<Conjunct<u32>>, TypeFault>
    ensures value { IfOk result (λ made. made ≡ merging.merge same_term xs.now ys.now) }
    ensures width { Exactly result (merging.few_pairs xs.now ys.now) }
{
    match xs.len().checked_mul(ys.len()) {
        None => return Err(TypeFault::TypeWide),
        Some(count) => {
            if LIMIT < count {
                return Err(TypeFault::TypeWide);
            }
        }
    }
    let mut made = NumberedConjuncts::new(alloc);
    for x in xs {
        made = with_pairs(alloc, made, x, ys)?;
    }
    Ok(made.into_items())
}

/// Both lists, in order, or their merge.
pub fn either(
    alloc: Global,
    union: bool,
    xs: Items<Conjunct<u32>>,
    ys: Items<Conjunct<u32>>,
) -> Result<Items<Conjunct<u32>>, TypeFault>
    ensures value { IfOk result (λ all. all ≡ merging.either same_term union xs ys) }
    ensures width { Exactly result (merging.narrow_either union xs ys) }
{
    if !union {
        return merge(alloc, xs.as_slice(), ys.as_slice());
    }
    Ok(united_conjuncts(alloc, xs, ys.as_slice())?)
}
