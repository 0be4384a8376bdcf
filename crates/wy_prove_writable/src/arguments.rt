//! Terms in steps.
ghost use Rattle.std.specs.Prelude.{◌<◌, ◌↔◌, ℕ, length, map, All, IsTrue};
ghost use Rattle.wy_check_laws.specs.reread.Writable.{AreWritableArguments, AreWritableTerms, IsNoConstant, IsWritableArgument, IsWritableAt, IsWritableTerm};
ghost use Rattle.wy_term.specs.Nodes.{grown, plain, tree_at};
ghost use Rattle.wy_term.specs.Sorts.{formula_sort};
ghost use Rattle.wy_term.specs.Term.{Term};
ghost use Rattle.wy_prove_writable.specs.sorted.Sorts.{seen_sort};
ghost use Rattle.wy_prove_writable.specs.Listed.{TellWritable};

use crate::sorted::{Sort, is_of_sort};
use wy_term::{Node, Terms};

/// Whether a term can be written as one of a sort.
pub fn is_writable(terms: &Terms, copies: &[Option<u32>], term: u32, sort: Sort) -> bool
    requires term { term < length copies.now }
    requires tells { TellWritable terms.now copies.now }
    ensures exactly { IsTrue result ↔ IsWritableAt (seen_sort sort) (tree_at terms.now term) }
{
    copies[term as usize].is_some() && is_of_sort(terms, term, sort)
}

// Whether a term of a number or a datum can be written.
fn is_term(terms: &Terms, copies: &[Option<u32>], term: u32) -> bool
    requires term { term < length copies.now }
    requires tells { TellWritable terms.now copies.now }
    ensures exactly { IsTrue result ↔ IsWritableTerm (tree_at terms.now term) }
{
    is_writable(terms, copies, term, Sort::Int) || is_writable(terms, copies, term, Sort::Val)
}

/// Whether each of these is such a term.
pub fn are_terms(terms: &Terms, copies: &[Option<u32>], all: &[u32]) -> bool
    requires terms { All (λ k. k < length copies.now) all.now }
    requires tells { TellWritable terms.now copies.now }
    ensures exactly { IsTrue result ↔ AreWritableTerms (map (tree_at terms.now) all.now) }
{
    for term in all {
        if !is_term(terms, copies, *term) {
            return false;
        }
    }
    true
}

// Whether a node is neither `true` nor `false` as a formula, which are the `and` and the `or` of nothing.
fn is_no_constant(node: &Node) -> bool
    ensures { (at : ℕ → Term) → IsTrue result ↔ IsNoConstant (grown at (plain node.now)) }
{
    match node {
        Node::And(members) => !members.is_empty(),
        Node::Or(members) => !members.is_empty(),
        _ => true,
    }
}

// Whether a term is a formula that can be written and is no constant.
fn is_formula_argument(terms: &Terms, copies: &[Option<u32>], term: u32) -> bool
    requires term { term < length copies.now }
    requires tells { TellWritable terms.now copies.now }
    ensures exactly { IsTrue result ↔ (IsNoConstant (tree_at terms.now term) × IsWritableAt formula_sort (tree_at terms.now term)) }
{
    is_no_constant(terms.node(term)) && is_writable(terms, copies, term, Sort::Formula)
}

// Whether a term may be the argument of a fact: it is one of a number or a datum, or a formula that is no constant.
fn is_argument(terms: &Terms, copies: &[Option<u32>], term: u32) -> bool
    requires term { term < length copies.now }
    requires tells { TellWritable terms.now copies.now }
    ensures exactly { IsTrue result ↔ IsWritableArgument (tree_at terms.now term) }
{
    is_term(terms, copies, term) || is_formula_argument(terms, copies, term)
}

/// Whether each of these may be the argument of a fact.
pub fn are_arguments(terms: &Terms, copies: &[Option<u32>], all: &[u32]) -> bool
    requires terms { All (λ k. k < length copies.now) all.now }
    requires tells { TellWritable terms.now copies.now }
    ensures exactly { IsTrue result ↔ AreWritableArguments (map (tree_at terms.now) all.now) }
{
    for term in all {
        if !is_argument(terms, copies, *term) {
            return false;
        }
    }
    true
}
