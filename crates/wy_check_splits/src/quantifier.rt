//! Quantifiers, taken apart.
ghost use Rattle.std.specs.Prelude.{◌≡◌, ◌<◌, ℕ, length, option_map, IfOk, IfSome};
ghost use Rattle.wy_check_nodes.specs.wy_term.Term.{Term};
ghost use Rattle.wy_check_nodes.specs.wy_term.Nodes.{tree_at};
ghost use Rattle.wy_check_nodes.specs.Seen.{seen_literal};
ghost use Rattle.wy_check_nodes.specs.wy_check_spec.valid.Ranges.{as_every, as_exists, of_each, of_one};
ghost use Rattle.wy_check_splits.specs.Seen.{seen_range, IsRangeOver};

use wy_check_nodes::{NoMemory, Node, Quantifier, Terms};
use wy_data::Name;

/// A bound Int name, the numbers of its bounds, and that of the formula of which they are the range.
#[derive(Drop)]
pub struct Range {
    pub word: Name,
    pub number: u128,
    pub lower: u32,
    pub upper: u32,
    pub body: u32,
}

// The range of a quantifier's node.
fn range_of(terms: &Terms, q: &Quantifier) -> Result<Range, NoMemory>
    ensures value { (at : ℕ → Term) → IfOk result (λ r. seen_range at r ≡ record { word = q.now.word; number = q.now.number; lower = at q.now.from; upper = at q.now.below; body = at q.now.body }) }
    ensures over { (n : ℕ) → q.now.from < n → q.now.below < n → q.now.body < n → IfOk result (IsRangeOver n) }
{
    Ok(Range {
        word: q.word.copy(terms.allocator())?,
        number: q.number,
        lower: q.from,
        upper: q.below,
        body: q.body,
    })
}

// The range of an `all`.
fn as_every(terms: &Terms, f: u32) -> Result<Option<Range>, NoMemory>
    requires { f < length terms.now }
    ensures value { IfOk result (λ o. option_map (seen_range (tree_at terms.now)) o ≡ as_every (tree_at terms.now f)) }
    ensures over { IfOk result (λ o. IfSome o (IsRangeOver (length terms.now))) }
{
    match terms.node(f) {
        Node::All(q) => match range_of(terms, q) {
            Ok(r) => Ok(Some(r)),
            Err(e) => Err(e),
        },
        _ => Ok(None),
    }
}

// The range of a `some`.
fn as_exists(terms: &Terms, f: u32) -> Result<Option<Range>, NoMemory>
    requires { f < length terms.now }
    ensures value { IfOk result (λ o. option_map (seen_range (tree_at terms.now)) o ≡ as_exists (tree_at terms.now f)) }
    ensures over { IfOk result (λ o. IfSome o (IsRangeOver (length terms.now))) }
{
    match terms.node(f) {
        Node::Some(q) => match range_of(terms, q) {
            Ok(r) => Ok(Some(r)),
            Err(e) => Err(e),
        },
        _ => Ok(None),
    }
}

/// The range of a true `all` or of a false `some`.
pub fn of_each(terms: &Terms, atom: u32, holds: bool) -> Result<Option<Range>, NoMemory>
    requires { atom < length terms.now }
    ensures value { IfOk result (λ o. option_map (seen_range (tree_at terms.now)) o ≡ of_each (seen_literal (tree_at terms.now) (atom, holds))) }
    ensures over { IfOk result (λ o. IfSome o (IsRangeOver (length terms.now))) }
{
    if holds {
        as_every(terms, atom)
    } else {
        as_exists(terms, atom)
    }
}

/// The range of a true `some` or of a false `all`.
pub fn of_one(terms: &Terms, atom: u32, holds: bool) -> Result<Option<Range>, NoMemory>
    requires { atom < length terms.now }
    ensures value { IfOk result (λ o. option_map (seen_range (tree_at terms.now)) o ≡ of_one (seen_literal (tree_at terms.now) (atom, holds))) }
    ensures over { IfOk result (λ o. IfSome o (IsRangeOver (length terms.now))) }
{
    if holds {
        as_exists(terms, atom)
    } else {
        as_every(terms, atom)
    }
}
