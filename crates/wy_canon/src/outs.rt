//! Atoms, conjuncts and normal types taken out: what is not in them.
ghost use Rattle.std.specs.Prelude.{◌≡◌, ◌++◌, ◌∷◌, [], IfOk};
ghost use Rattle.wy_canon.specs.Width.{Exactly};
ghost use Rattle.wy_types.specs.Conjuncts.{same_term};
ghost use Rattle.wy_types.specs.Merge as merging;

use crate::copies::copy_atom;
use crate::fault::TypeFault;
use crate::lists::{united_conjuncts, with_one};
use crate::meets::merge;
use std::alloc::{AllocError, Global};
use wy_items::Items;
use wy_types::{Atom, Conjunct, Part};

fn all_arrays(alloc: Global) -> Atom<u32>
    ensures value { result ≡ merging.all_arrays }
{
    Atom::Array(Part {
        terms: Items::new(alloc),
    })
}

fn push_plain(
    alloc: Global,
    made: Items<Conjunct<u32>>,
    positive: Atom<u32>,
) -> Result<Items<Conjunct<u32>>, AllocError>
    ensures value { IfOk result (λ all. all ≡ made ++ merging.plain positive ∷ []) }
{
    let mut made = made;
    made.push(Conjunct {
        positive,
        negatives: Items::new(alloc),
    })?;
    Ok(made)
}

fn push_without(
    alloc: Global,
    made: Items<Conjunct<u32>>,
    positive: Atom<u32>,
    negative: Atom<u32>,
) -> Result<Items<Conjunct<u32>>, AllocError>
    ensures value { IfOk result (λ all. all ≡ made ++ merging.without positive negative ∷ []) }
{
    let mut made = made;
    let mut negatives = Items::new(alloc);
    negatives.push(negative)?;
    made.push(Conjunct {
        positive,
        negatives,
    })?;
    Ok(made)
}

// Two kinds.
fn two(alloc: Global, a: Atom<u32>, b: Atom<u32>) -> Result<Items<Conjunct<u32>>, AllocError>
    ensures value { IfOk result (λ all. all ≡ merging.plain a ∷ merging.plain b ∷ []) }
{
    let made = push_plain(alloc, Items::new(alloc), a)?;
    push_plain(alloc, made, b)
}

// The kinds null, bool and int.
fn scalars(alloc: Global) -> Result<Items<Conjunct<u32>>, AllocError>
    ensures value { IfOk result (λ all. all ≡ merging.plain Atom.Null ∷ merging.plain Atom.Bool ∷ merging.plain Atom.Int ∷ []) }
{
    let made = two(alloc, Atom::Null, Atom::Bool)?;
    push_plain(alloc, made, Atom::Int)
}

// The kinds of arrays and records, behind those of a list.
fn push_compounds(
    alloc: Global,
    made: Items<Conjunct<u32>>,
) -> Result<Items<Conjunct<u32>>, AllocError>
    ensures value { IfOk result (λ all. all ≡ made ++ merging.plain merging.all_arrays ∷ merging.plain Atom.AnyRecord ∷ []) }
{
    let made = push_plain(alloc, made, all_arrays(alloc))?;
    push_plain(alloc, made, Atom::AnyRecord)
}

fn all_kinds(alloc: Global) -> Result<Items<Conjunct<u32>>, AllocError>
    ensures value { IfOk result (λ all. all ≡ merging.kinds) }
{
    let made = scalars(alloc)?;
    push_compounds(alloc, made)
}

/// Nothing taken in, everything taken out.
pub fn nothing_or_all(alloc: Global, inside: bool) -> Result<Items<Conjunct<u32>>, AllocError>
    ensures value { IfOk result (λ all. all ≡ merging.nothing_or_all inside) }
{
    if inside {
        return Ok(Items::new(alloc));
    }
    all_kinds(alloc)
}

/// Everything taken in, nothing taken out.
pub fn all_or_nothing(alloc: Global, inside: bool) -> Result<Items<Conjunct<u32>>, AllocError>
    ensures value { IfOk result (λ all. all ≡ merging.all_or_nothing inside) }
{
    if inside {
        return all_kinds(alloc);
    }
    Ok(Items::new(alloc))
}

fn taken_out(alloc: Global, atom: Atom<u32>) -> Result<Items<Conjunct<u32>>, AllocError>
    ensures value { IfOk result (λ all. all ≡ merging.taken_out atom) }
{
    match atom {
        Atom::Null => push_compounds(alloc, two(alloc, Atom::Bool, Atom::Int)?),
        Atom::Bool => push_compounds(alloc, two(alloc, Atom::Null, Atom::Int)?),
        Atom::Int => push_compounds(alloc, two(alloc, Atom::Null, Atom::Bool)?),
        Atom::Array(part) => {
            let made = scalars(alloc)?;
            let made = push_without(alloc, made, all_arrays(alloc), Atom::Array(part))?;
            push_plain(alloc, made, Atom::AnyRecord)
        }
        Atom::Record(fields) => {
            let made = scalars(alloc)?;
            let made = push_plain(alloc, made, all_arrays(alloc))?;
            push_without(alloc, made, Atom::AnyRecord, Atom::Record(fields))
        }
        Atom::AnyRecord => {
            let made = scalars(alloc)?;
            push_plain(alloc, made, all_arrays(alloc))
        }
    }
}

/// An atom taken in or out.
pub fn atom_or_out(
    alloc: Global,
    inside: bool,
    atom: Atom<u32>,
) -> Result<Items<Conjunct<u32>>, AllocError>
    ensures value { IfOk result (λ all. all ≡ merging.atom_or_out inside atom) }
{
    if inside {
        return push_plain(alloc, Items::new(alloc), atom);
    }
    taken_out(alloc, atom)
}

fn plain(alloc: Global, atom: &Atom<u32>) -> Result<Conjunct<u32>, AllocError>
    ensures value { IfOk result (λ made. made ≡ merging.plain atom.now) }
{
    Ok(Conjunct {
        positive: copy_atom(alloc, atom)?,
        negatives: Items::new(alloc),
    })
}

fn with_plains(
    alloc: Global,
    made: Items<Conjunct<u32>>,
    atoms: &[Atom<u32>],
) -> Result<Items<Conjunct<u32>>, AllocError>
    ensures value { IfOk result (λ all. all ≡ merging.with_plains same_term made atoms.now) }
{
    let mut made = made;
    for atom in atoms {
        made = with_one(made, plain(alloc, atom)?)?;
    }
    Ok(made)
}

fn conjunct_out(alloc: Global, conjunct: &Conjunct<u32>) -> Result<Items<Conjunct<u32>>, AllocError>
    ensures value { IfOk result (λ all. all ≡ merging.conjunct_out same_term conjunct.now) }
{
    let made = taken_out(alloc, copy_atom(alloc, &conjunct.positive)?)?;
    with_plains(alloc, made, conjunct.negatives.as_slice())
}

// What is in none of the conjuncts.
fn all_out(alloc: Global, conjuncts: &[Conjunct<u32>]) -> Result<Items<Conjunct<u32>>, TypeFault>
    ensures value { IfOk result (λ all. all ≡ merging.all_out same_term conjuncts.now) }
    ensures width { Exactly result (merging.narrow_all_out same_term conjuncts.now) }
{
    match conjuncts {
        [] => Ok(all_kinds(alloc)?),
        [first, others @ ..] => {
            let mut made = conjunct_out(alloc, first)?;
            for conjunct in others {
                let next = conjunct_out(alloc, conjunct)?;
                made = merge(alloc, made.as_slice(), next.as_slice())?;
            }
            Ok(made)
        }
    }
}

/// A normal type taken in or out.
pub fn normal_or_out(
    alloc: Global,
    inside: bool,
    conjuncts: &[Conjunct<u32>],
) -> Result<Items<Conjunct<u32>>, TypeFault>
    ensures value { IfOk result (λ all. all ≡ merging.normal_or_out same_term inside conjuncts.now) }
    ensures width { Exactly result (merging.narrow_normal same_term inside conjuncts.now) }
{
    if inside {
        return Ok(united_conjuncts(alloc, Items::new(alloc), conjuncts)?);
    }
    all_out(alloc, conjuncts)
}
