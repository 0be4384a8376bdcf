//! What a quantifier states of an Int term.
ghost use Rattle.std.specs.Prelude.{◌≡◌, ◌<◌, length, option_map, IfOk, IfSome};
ghost use Rattle.wy_check_nodes.specs.wy_term.Term.{leaf, int_name};
ghost use Rattle.wy_check_nodes.specs.wy_term.Nodes.{tree_at};
ghost use Rattle.wy_check_nodes.specs.wy_facts.Seen.{Stays};
ghost use Rattle.wy_check_nodes.specs.wy_term_subst.Substitution.{substituted};
ghost use Rattle.wy_check_nodes.specs.Seen.{seen_branch, IsBranch};
ghost use Rattle.wy_check_nodes.specs.wy_check_spec.valid.Ranges.{said, body_at, instance_at, is_int, instance_stated};
ghost use Rattle.wy_check_splits.specs.Seen.{seen_range, IsRangeOver};

use crate::making::{above, at_most, denial, one_of_three};
use crate::quantifier::{Range, of_each};
use wy_check_nodes::{Branch, NoMemory, Node, Terms, literal_at, subst};
use wy_data::Name;

/// The Int name with a word and a number.
pub fn name(terms: &mut Terms, word: &Name, number: u128) -> Result<u32, NoMemory>
    ensures value { IfOk result (λ x. tree_at terms.new x ≡ leaf (int_name word.now number)) }
    ensures within { IfOk result (λ x. x < length terms.new) }
    ensures stays { Stays terms.old terms.new }
{
    let word = word.copy(terms.allocator())?;
    terms.intern(Node::IntName(word, number))
}

// A term in the place of the bound name in the body.
fn body_of(terms: &mut Terms, r: &Range, t: u32) -> Result<u32, NoMemory>
    requires range { IsRangeOver (length terms.old) r.now }
    requires term { t < length terms.old }
    ensures value { IfOk result (λ f. tree_at terms.new f ≡ substituted (tree_at terms.old r.now.body) (leaf (int_name r.now.word r.now.number)) (tree_at terms.old t)) }
    ensures within { IfOk result (λ f. f < length terms.new) }
    ensures stays { Stays terms.old terms.new }
{
    let x = name(terms, &r.word, r.number)?;
    subst(terms, r.body, x, t)
}

/// The body of a quantifier, or its denial, at an Int term.
pub fn body_at(terms: &mut Terms, holds: bool, r: &Range, t: u32) -> Result<u32, NoMemory>
    requires range { IsRangeOver (length terms.old) r.now }
    requires term { t < length terms.old }
    ensures value { IfOk result (λ f. tree_at terms.new f ≡ body_at holds (seen_range (tree_at terms.old) r.now) (tree_at terms.old t)) }
    ensures within { IfOk result (λ f. f < length terms.new) }
    ensures stays { Stays terms.old terms.new }
{
    let f = body_of(terms, r, t)?;
    if holds { Ok(f) } else { denial(terms, f) }
}

/// The term isn't in the range, or the body, or its denial, holds at it.
pub fn instance_at(terms: &mut Terms, holds: bool, r: &Range, t: u32) -> Result<u32, NoMemory>
    requires range { IsRangeOver (length terms.old) r.now }
    requires term { t < length terms.old }
    ensures value { IfOk result (λ f. tree_at terms.new f ≡ instance_at holds (seen_range (tree_at terms.old) r.now) (tree_at terms.old t)) }
    ensures within { IfOk result (λ f. f < length terms.new) }
    ensures stays { Stays terms.old terms.new }
{
    let below = above(terms, r.lower, t)?;
    let behind = at_most(terms, r.upper, t)?;
    let body = body_at(terms, holds, r, t)?;
    one_of_three(terms, below, behind, body)
}

// Whether a term is an Int term.
fn is_int(terms: &Terms, t: u32) -> bool
    requires { t < length terms.now }
    ensures { result ≡ is_int (tree_at terms.now t) }
{
    match terms.node(t) {
        Node::Number(_) | Node::IntName(_, _) | Node::Add(_, _) | Node::Sub(_, _) => true,
        Node::Neg(_) | Node::Mul(_, _) | Node::Div(_, _) | Node::Mod(_, _) => true,
        Node::Num(_) | Node::Len(_) => true,
        _ => false,
    }
}

/// What the literal with a number, from 1, states of an Int term, where it is a true `all` or a false `some`. It takes the
/// time to put the term into the quantifier's body. Older numbers name what they named.
pub fn instance_stated(
    terms: &mut Terms,
    branch: &Branch,
    i: u32,
    t: u32,
) -> Result<Option<u32>, NoMemory>
    requires branch { IsBranch terms.old branch.now }
    requires term { t < length terms.old }
    ensures value { IfOk result (λ o. option_map (tree_at terms.new) o ≡ instance_stated (seen_branch (tree_at terms.old) branch.now).literals i (tree_at terms.old t)) }
    ensures within { IfOk result (λ o. IfSome o (λ f. f < length terms.new)) }
    ensures stays { Stays terms.old terms.new }
{
    let Some((atom, holds)) = literal_at(terms, branch, i) else {
        return Ok(None);
    };
    match of_each(terms, atom, holds)? {
        None => Ok(None),
        Some(r) => {
            if !is_int(terms, t) {
                return Ok(None);
            }
            match instance_at(terms, holds, &r, t) {
                Ok(f) => Ok(Some(f)),
                Err(e) => Err(e),
            }
        }
    }
}
