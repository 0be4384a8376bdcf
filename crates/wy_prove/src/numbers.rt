//! The numbers of the literals that a plan names.
ghost use Rattle.wy_prove_rounds.specs.wy_prove_drafts.Draft.{IsDraft};

use wy_items::at;
use wy_prove_explaining::Named;
use wy_prove_rounds::{Draft, literal_number};
use wy_term::{NoMemory, Terms};

// The number of a literal of the draft's node, if it stands there.
fn number_there(
    terms: &Terms,
    draft: &Draft,
    atom: u32,
    holds: bool,
) -> Result<Option<u32>, NoMemory>
    requires { IsDraft terms.now draft.now }
{
    if atom as usize >= terms.len() {
        return Ok(None);
    }
    literal_number(terms, &draft.branch, atom, holds)
}

/// The number of a literal that a plan names, of which cuts stated these, if it stands in the draft's node.
pub fn number_of(
    terms: &Terms,
    draft: &Draft,
    stated: &[u32],
    named: Named,
) -> Result<Option<u32>, NoMemory>
    requires { IsDraft terms.now draft.now }
{
    match named {
        Named::Literal(atom, holds) => number_there(terms, draft, atom, holds),
        Named::Stated(k) => Ok(at(stated, k as usize).copied()),
    }
}

// The number of a second literal, if there is one, behind the first.
fn with_other(
    terms: &Terms,
    draft: &Draft,
    first: u32,
    other: Option<Named>,
) -> Result<Option<(u32, Option<u32>)>, NoMemory>
    requires { IsDraft terms.now draft.now }
{
    match other {
        Some(named) => match number_of(terms, draft, &[], named)? {
            Some(second) => Ok(Some((first, Some(second)))),
            None => Ok(None),
        },
        None => Ok(Some((first, None))),
    }
}

/// The numbers of one literal or two, if they stand in the draft's node.
pub fn one_or_two(
    terms: &Terms,
    draft: &Draft,
    i: Named,
    other: Option<Named>,
) -> Result<Option<(u32, Option<u32>)>, NoMemory>
    requires { IsDraft terms.now draft.now }
{
    match number_of(terms, draft, &[], i)? {
        Some(first) => with_other(terms, draft, first, other),
        None => Ok(None),
    }
}

/// Multipliers, each with the number of its literal, of which cuts stated these, if all stand in the draft's node.
pub fn numbered(
    terms: &Terms,
    draft: &Draft,
    stated: &[u32],
    parts: &[(u128, Named)],
) -> Result<Option<Vec<(u128, u32)>>, NoMemory>
    requires { IsDraft terms.now draft.now }
{
    let mut made = Vec::new(terms.allocator());
    for part in parts {
        match number_of(terms, draft, stated, part.1)? {
            Some(number) => made.push((part.0, number))?,
            None => return Ok(None),
        }
    }
    Ok(Some(made))
}
