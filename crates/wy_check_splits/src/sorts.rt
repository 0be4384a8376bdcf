//! Which sort a term is of.
ghost use Rattle.std.specs.Prelude.{◌≡◌, ◌<◌, length};
ghost use Rattle.wy_check_nodes.specs.wy_term.Nodes.{tree_at};
ghost use Rattle.wy_check_nodes.specs.wy_term.Sorts.{sort_in};
ghost use Rattle.wy_check_splits.specs.Sorts.{seen_sort};

use wy_check_nodes::{Node, Terms};

/// A sort of terms.
#[derive(Clone, Copy, Debug, PartialEq, Eq)]
pub enum Sort {
    Int,
    Val,
    Formula,
}

/// The sort of a term, in constant time.
pub fn sort_at(terms: &Terms, t: u32) -> Sort
    requires { t < length terms.now }
    ensures { seen_sort result ≡ sort_in (tree_at terms.now t) }
{
    match terms.node(t) {
        Node::Number(_) | Node::IntName(_, _) | Node::Add(_, _) | Node::Sub(_, _) => Sort::Int,
        Node::Neg(_) | Node::Mul(_, _) | Node::Div(_, _) | Node::Mod(_, _) => Sort::Int,
        Node::Num(_) | Node::Len(_) => Sort::Int,
        Node::ValName(_, _) | Node::Null | Node::Bool(_) | Node::Int(_) => Sort::Val,
        Node::Truth(_) | Node::Array(_) | Node::Repeat(_, _) => Sort::Val,
        Node::Update(_, _, _) | Node::Get(_, _) | Node::Record(_) => Sort::Val,
        Node::Field(_, _) | Node::SetField(_, _, _) => Sort::Val,
        _ => Sort::Formula,
    }
}
