//! What conjuncts ask: the parts whose values decide whether they have one.
ghost use Rattle.std.specs.Prelude.{◌≡◌, ◌++◌, ◌∷◌, [], ℕ, List, map, IfOk};
ghost use Rattle.wy_canon.specs.wy_types.declared.conjuncts.Part.{Part};
ghost use Rattle.wy_canon.specs.wy_types.Asks as asks;
ghost use Rattle.wy_canon.specs.wy_types.Shape.{BoolShape, IntShape, NullShape, none_in};

use std::alloc::{AllocError, Global};
use wy_canon::{Atom, Part, Signed, Table, copy_fields, copy_terms, same_names, with_sides};
use wy_data::Name;
use wy_items::Items;

// The part, and the other sign of a term.
fn with_denied(
    alloc: Global,
    table: &Table,
    depth: u32,
    part: &[Signed<u32>],
    signed: &Signed<u32>,
) -> Result<Items<Signed<u32>>, AllocError>
    ensures value { IfOk result (λ made. made ≡ asks.with_denied table.now depth part.now signed.now) }
{
    let part = copy_terms(alloc, part)?;
    with_sides(table, depth, part, signed.up, !signed.inside, signed.term)
}

fn asked(
    alloc: Global,
    table: &Table,
    depth: u32,
    part: &[Signed<u32>],
    other: &[Signed<u32>],
) -> Result<Items<Items<Signed<u32>>>, AllocError>
    ensures value { IfOk result (λ made. made ≡ asks.asked table.now depth part.now other.now) }
{
    let mut made = Items::new(alloc);
    for signed in other {
        made.push(with_denied(alloc, table, depth, part, signed)?)?;
    }
    Ok(made)
}

fn asked_each(
    alloc: Global,
    table: &Table,
    depth: u32,
    part: &[Signed<u32>],
    negatives: &[Atom<u32>],
) -> Result<Items<Items<Items<Signed<u32>>>>, AllocError>
    ensures value { IfOk result (λ made. made ≡ asks.asked_each table.now depth part.now negatives.now) }
{
    let mut made = Items::new(alloc);
    for atom in negatives {
        match atom {
            Atom::Array(other) => {
                made.push(asked(alloc, table, depth, part, other.terms.as_slice())?)?
            }
            _ => {}
        }
    }
    Ok(made)
}

fn field_first(
    alloc: Global,
    name: &Name,
    terms: Items<Signed<u32>>,
    others: &[(Name, Part<u32>)],
) -> Result<Items<(Name, Part<u32>)>, AllocError>
    ensures value { IfOk result (λ made. made ≡ asks.field_first name.now terms others.now) }
{
    let mut way = Items::new(alloc);
    way.push((name.copy(alloc)?, Part { terms }))?;
    way.append(copy_fields(alloc, others)?)?;
    Ok(way)
}

// The fields, this one of them with the other sign of a term, for each term of the part.
fn spread_field(
    alloc: Global,
    table: &Table,
    depth: u32,
    before: &[(Name, Part<u32>)],
    field: &(Name, Part<u32>),
    behind: &[(Name, Part<u32>)],
    part: &[Signed<u32>],
) -> Result<Items<Items<(Name, Part<u32>)>>, AllocError>
    ensures value { IfOk result (λ ways. ways ≡ map (λ (w : List (List ℕ × Part ℕ)). before.now ++ w) (asks.spread_field table.now depth field.now behind.now part.now)) }
{
    let mut ways = Items::new(alloc);
    for signed in part {
        let terms = with_denied(alloc, table, depth, field.1.terms.as_slice(), signed)?;
        let mut way = copy_fields(alloc, before)?;
        way.append(field_first(alloc, &field.0, terms, behind)?)?;
        ways.push(way)?;
    }
    Ok(ways)
}

// The fields, one of them with the other sign of a member of the other record's part there, in each
// way. It is linear in what it makes.
fn spread(
    alloc: Global,
    table: &Table,
    depth: u32,
    fields: &[(Name, Part<u32>)],
    others: &[(Name, Part<u32>)],
) -> Result<Items<Items<(Name, Part<u32>)>>, AllocError>
    ensures value { IfOk result (λ ways. ways ≡ asks.spread table.now depth fields.now others.now) }
{
    let mut ways = Items::new(alloc);
    for place in 0..fields.len().min(others.len()) {
        let before = &fields[..place];
        let behind = &fields[place + 1..];
        let part = others[place].1.terms.as_slice();
        let made = spread_field(alloc, table, depth, before, &fields[place], behind, part)?;
        ways.append(made)?;
    }
    Ok(ways)
}

fn only_way(
    alloc: Global,
    fields: &[(Name, Part<u32>)],
) -> Result<Items<Items<(Name, Part<u32>)>>, AllocError>
    ensures value { IfOk result (λ ways. ways ≡ fields.now ∷ []) }
{
    let mut ways = Items::new(alloc);
    ways.push(copy_fields(alloc, fields)?)?;
    Ok(ways)
}

fn spread_by(
    alloc: Global,
    table: &Table,
    depth: u32,
    fields: &[(Name, Part<u32>)],
    atom: &Atom<u32>,
) -> Result<Items<Items<(Name, Part<u32>)>>, AllocError>
    ensures value { IfOk result (λ ways. ways ≡ asks.spread_by table.now depth fields.now atom.now) }
{
    match atom {
        Atom::Record(others) => {
            if same_names(fields, others.as_slice()) {
                return spread(alloc, table, depth, fields, others.as_slice());
            }
            only_way(alloc, fields)
        }
        Atom::AnyRecord => Ok(Items::new(alloc)),
        _ => only_way(alloc, fields),
    }
}

fn spread_each(
    alloc: Global,
    table: &Table,
    depth: u32,
    ways: &[Items<(Name, Part<u32>)>],
    atom: &Atom<u32>,
) -> Result<Items<Items<(Name, Part<u32>)>>, AllocError>
    ensures value { IfOk result (λ made. made ≡ asks.spread_each table.now depth ways.now atom.now) }
{
    let mut made = Items::new(alloc);
    for way in ways {
        made.append(spread_by(alloc, table, depth, way.as_slice(), atom)?)?;
    }
    Ok(made)
}

/// The ways of all negatives, the first of them slowest.
pub fn ways_from(
    alloc: Global,
    table: &Table,
    depth: u32,
    first: Items<Items<(Name, Part<u32>)>>,
    negatives: &[Atom<u32>],
) -> Result<Items<Items<(Name, Part<u32>)>>, AllocError>
    ensures value { IfOk result (λ ways. ways ≡ asks.ways_from table.now depth first negatives.now) }
{
    let mut ways = first;
    for atom in negatives {
        ways = spread_each(alloc, table, depth, ways.as_slice(), atom)?;
    }
    Ok(ways)
}

fn alone(
    alloc: Global,
    way: &[(Name, Part<u32>)],
) -> Result<Items<Items<Items<Signed<u32>>>>, AllocError>
    ensures value { IfOk result (λ made. made ≡ asks.alone way.now) }
{
    let mut made = Items::new(alloc);
    for field in way {
        let mut one = Items::new(alloc);
        one.push(copy_terms(alloc, field.1.terms.as_slice())?)?;
        made.push(one)?;
    }
    Ok(made)
}

fn all_alone(
    alloc: Global,
    ways: &[Items<(Name, Part<u32>)>],
) -> Result<Items<Items<Items<Items<Signed<u32>>>>>, AllocError>
    ensures value { IfOk result (λ made. made ≡ asks.all_alone ways.now) }
{
    let mut made = Items::new(alloc);
    for way in ways {
        made.push(alone(alloc, way.as_slice())?)?;
    }
    Ok(made)
}

fn always(alloc: Global, met: bool) -> Result<Items<Items<Items<Items<Signed<u32>>>>>, AllocError>
    ensures value { IfOk result (λ made. made ≡ asks.always met) }
{
    let mut made = Items::new(alloc);
    if met {
        made.push(Items::new(alloc))?;
        return Ok(made);
    }
    Ok(made)
}

fn names_only(negatives: &[Atom<u32>]) -> bool
    ensures value { result ≡ asks.names_only negatives.now }
{
    for atom in negatives {
        match atom {
            Atom::AnyRecord => return false,
            _ => {}
        }
    }
    true
}

fn no_null(negatives: &[Atom<u32>]) -> bool
    ensures value { result ≡ none_in NullShape negatives.now }
{
    for atom in negatives {
        match atom {
            Atom::Null => return false,
            _ => {}
        }
    }
    true
}

fn no_bool(negatives: &[Atom<u32>]) -> bool
    ensures value { result ≡ none_in BoolShape negatives.now }
{
    for atom in negatives {
        match atom {
            Atom::Bool => return false,
            _ => {}
        }
    }
    true
}

fn no_int(negatives: &[Atom<u32>]) -> bool
    ensures value { result ≡ none_in IntShape negatives.now }
{
    for atom in negatives {
        match atom {
            Atom::Int => return false,
            _ => {}
        }
    }
    true
}

/// What a positive atom without the negatives asks: some of these, of which all, of each of which
/// some part, have a value.
pub fn options_of(
    alloc: Global,
    table: &Table,
    depth: u32,
    positive: &Atom<u32>,
    negatives: &[Atom<u32>],
) -> Result<Items<Items<Items<Items<Signed<u32>>>>>, AllocError>
    ensures value { IfOk result (λ made. made ≡ asks.options_of table.now depth positive.now negatives.now) }
{
    match positive {
        Atom::Null => always(alloc, no_null(negatives)),
        Atom::Bool => always(alloc, no_bool(negatives)),
        Atom::Int => always(alloc, no_int(negatives)),
        Atom::Array(part) => {
            let mut made = Items::new(alloc);
            made.push(asked_each(alloc, table, depth, part.terms.as_slice(), negatives)?)?;
            Ok(made)
        }
        Atom::Record(fields) => {
            let first = only_way(alloc, fields.as_slice())?;
            let ways = ways_from(alloc, table, depth, first, negatives)?;
            all_alone(alloc, ways.as_slice())
        }
        Atom::AnyRecord => always(alloc, names_only(negatives)),
    }
}
