//! What a quantifier states of a new name.
ghost use Rattle.std.specs.Prelude.{◌≡◌, ◌<◌, length, option_map, IfOk, IfSome};
ghost use Rattle.wy_check_nodes.specs.wy_term.Nodes.{tree_at};
ghost use Rattle.wy_check_nodes.specs.wy_facts.Seen.{terms_at, AreBelow, Stays};
ghost use Rattle.wy_check_nodes.specs.Seen.{seen_branch, IsBranch};
ghost use Rattle.wy_check_nodes.specs.wy_check_spec.valid.Ranges.{witness, witnessed_at, witness_stated};
ghost use Rattle.wy_check_splits.specs.Seen.{seen_range, IsRangeOver};

use crate::instance::{body_at, name};
use crate::making::{above, at_most};
use crate::numbers::fresh_number;
use crate::quantifier::{Range, of_one};
use wy_check_nodes::{Branch, NoMemory, Terms, literal_at};

/// A term is in the range, and the body, or its denial, holds at it.
pub fn witnessed_at(terms: &mut Terms, holds: bool, r: &Range, x: u32) -> Result<Vec<u32>, NoMemory>
    requires range { IsRangeOver (length terms.old) r.now }
    requires term { x < length terms.old }
    ensures value { IfOk result (λ fs. terms_at terms.new fs.items ≡ witnessed_at holds (seen_range (tree_at terms.old) r.now) (tree_at terms.old x)) }
    ensures within { IfOk result (λ fs. AreBelow (length terms.new) fs.items) }
    ensures stays { Stays terms.old terms.new }
{
    let lower = at_most(terms, r.lower, x)?;
    let upper = above(terms, r.upper, x)?;
    let body = body_at(terms, holds, r, x)?;
    Ok(Vec::from_slice(terms.allocator(), &[lower, upper, body])?)
}

// The same of a new name.
fn witnessed(
    terms: &mut Terms,
    branch: &Branch,
    holds: bool,
    r: &Range,
) -> Result<Vec<u32>, NoMemory>
    requires branch { IsBranch terms.old branch.now }
    requires range { IsRangeOver (length terms.old) r.now }
    ensures value { IfOk result (λ fs. terms_at terms.new fs.items ≡ witnessed_at holds (seen_range (tree_at terms.old) r.now) (witness (seen_branch (tree_at terms.old) branch.now) (seen_range (tree_at terms.old) r.now))) }
    ensures within { IfOk result (λ fs. AreBelow (length terms.new) fs.items) }
    ensures stays { Stays terms.old terms.new }
{
    let number = fresh_number(terms, branch)?;
    let x = name(terms, &r.word, number)?;
    witnessed_at(terms, holds, r, x)
}

/// What the literal with a number, from 1, states of a new name, where it is a true `some` or a false `all`: the two bounds,
/// and the body or its denial. The name is of the bound name's word. It takes time linear in how many terms the node's
/// formulas are made of. Older numbers name what they named.
pub fn witness_stated(
    terms: &mut Terms,
    branch: &Branch,
    i: u32,
) -> Result<Option<Vec<u32>>, NoMemory>
    requires { IsBranch terms.old branch.now }
    ensures value { IfOk result (λ o. option_map (λ fs. terms_at terms.new fs.items) o ≡ witness_stated (seen_branch (tree_at terms.old) branch.now) i) }
    ensures within { IfOk result (λ o. IfSome o (λ fs. AreBelow (length terms.new) fs.items)) }
    ensures stays { Stays terms.old terms.new }
{
    let Some((atom, holds)) = literal_at(terms, branch, i) else {
        return Ok(None);
    };
    match of_one(terms, atom, holds)? {
        None => Ok(None),
        Some(r) => match witnessed(terms, branch, holds, &r) {
            Ok(fs) => Ok(Some(fs)),
            Err(e) => Err(e),
        },
    }
}
