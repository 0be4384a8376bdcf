//! Which sort a term is of.
ghost use Rattle.std.specs.Prelude.{◌≡◌, ◌<◌, ◌↔◌, length, IsTrue};
ghost use Rattle.wy_term.specs.Nodes.{tree_at};
ghost use Rattle.wy_term.specs.Sorts.{sort_in};
ghost use Rattle.wy_prove_writable.specs.sorted.Sorts.{seen_sort};

use wy_term::{Node, Terms};

/// A sort of terms.
#[derive(Clone, Copy, Debug, PartialEq, Eq)]
pub enum Sort {
    Int,
    Val,
    Formula,
}

// The sort of a term, in constant time.
fn sort_at(terms: &Terms, term: u32) -> Sort
    requires { term < length terms.now }
    ensures value { seen_sort result ≡ sort_in (tree_at terms.now term) }
{
    match terms.node(term) {
        Node::Number(_) | Node::IntName(_, _) | Node::Add(_, _) | Node::Sub(_, _) => Sort::Int,
        Node::Neg(_) | Node::Mul(_, _) | Node::Div(_, _) | Node::Mod(_, _) => Sort::Int,
        Node::Num(_) | Node::Len(_) => Sort::Int,
        Node::ValName(_, _) | Node::Null | Node::Bool(_) | Node::Int(_) => Sort::Val,
        Node::Truth(_) | Node::Array(_) | Node::Repeat(_, _) => Sort::Val,
        Node::Update(_, _, _) | Node::Get(_, _) | Node::Record(_) => Sort::Val,
        Node::Field(_, _) | Node::SetField(_, _, _) => Sort::Val,
        _ => Sort::Formula,
    }
}

/// Whether a term is of a sort, in constant time.
#[tactic(auto, using(crate::proofs::sorted_lemmas::SortLemmas::same_sorts))]
pub fn is_of_sort(terms: &Terms, term: u32, sort: Sort) -> bool
    requires { term < length terms.now }
    ensures exactly { IsTrue result ↔ (sort_in (tree_at terms.now term) ≡ seen_sort sort) }
{
    sort_at(terms, term) == sort
}
